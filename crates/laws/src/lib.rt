// Laws with no battery in them, which the other crates share (specs/), the two ways in which code meets a word's
// bits, and a run of samples, counted.

#![tactic(auto)]

ghost use Rattle.std.specs.Prelude.{◌≡◌};
ghost use Rattle.laws.specs.Bits.{has_bit, with_bit_if};
ghost use Rattle.laws.specs.Latest.{next_run};

// Whether bit i of w is set; a word has no bit past its sixteenth.
pub fn has_bit(w: u16, i: u8) -> bool
    ensures { result ≡ has_bit w i }
{
    i < 16 && (w >> i) % 2 == 1
}

// The word with bit i set where `on` holds; past the sixteenth there is none to set.
#[tactic(auto, unfolding(crate::specs::Bits::with_bit_if))]
pub fn with_bit_if(w: u16, i: u8, on: bool) -> u16
    ensures { result ≡ with_bit_if on w i }
{
    if on && i < 16 { w | (1u16 << i) } else { w }
}

// A run, one sample on: one longer if the sample counts, else none. It stays where a byte ends.
#[tactic(auto, unfolding(crate::specs::Latest::next_run))]
pub fn next_run(counts: bool, run: u8) -> u8
    ensures { result ≡ next_run counts run }
{
    if counts { run.saturating_add(1) } else { 0 }
}
