// The words that are sent: for each row of the table of commands its word.

#![tactic(auto)]

ghost use Rattle.std.specs.Prelude.{◌≡◌, cond, ◌*◌, ◌≤◌, length, sum_by};
ghost use Rattle.laws.specs.Bits.{has_bit};
ghost use Rattle.units.specs.Cells.{ten_at_most};
ghost use Rattle.sample.specs.Cells.{extremes_of};
ghost use Rattle.guard_raised.specs.Words.{blocks_any};
ghost use Rattle.pack_state.specs.State.{Watched};
ghost use Rattle.bus_words.specs.Words.{sum_to, sum_word, numbers_word, cell_word, heat_raised, pack_word, sent_word, said_of, status_of, raised_or_on, raised_and_switches, is_bounded, Bounded};

use bleed_wants::is_charging;
use bus_table::{PackWord, Sends};
use guard_raised::{blocks, raised_word};
use laws::{has_bit, with_bit_if};
use pack_shown::{mode, switches};
use pack_state::Pack;
use page_settings::Rules;
use sample::{Sample, extremes_of};
use units::{CellNo, MilliVolts, ten_at_most, word_of};

// The sum of some cells, ten at most.
fn sum_of(cells: &[MilliVolts]) -> u32
    requires { length cells.now ≤ 10 }
    ensures { result ≡ sum_by (λ (v : MilliVolts). v.0) cells.now }
{
    cells.iter().map(|v| u32::from(v.0)).sum()
}

// The sum of the first `count` cells.
fn sum_to(cells: [MilliVolts; 10], count: u8) -> u32
    ensures { result ≡ sum_to cells (ten_at_most count) }
{
    sum_of(&cells[..ten_at_most(count)])
}

// The sum of the cells of an accepted sample.
fn sum_word(s: Sample) -> u16
    requires { sum_word s ≤ 60000 }
    ensures { result ≡ sum_word s }
{
    sum_to(s.cells, s.count) as u16
}

// A cell's word; a number that no cell has reads as 0.
#[tactic(auto, unfolding(crate::specs::Words::cell_word))]
fn cell_word(cells: [MilliVolts; 10], k: CellNo) -> u16
    ensures { result ≡ cell_word cells k.0 }
{
    let number = k.0;
    if number == 0 || 10 < number {
        return 0;
    }
    cells[usize::from(number - 1)].0
}

// The numbers of the highest and the lowest cell: the highest's in the low byte, the lowest's in the high byte.
#[tactic(auto, unfolding(crate::specs::Words::numbers_word))]
fn numbers_word(s: Sample) -> u16
    ensures { result ≡ numbers_word (extremes_of s.cells s.count) }
{
    let e = extremes_of(s.cells, s.count);
    u16::from_le_bytes([e.highest.number.0, e.lowest.number.0])
}

// n × word 7, as wide as it takes.
fn voltage_of(r: Rules) -> u32
    ensures { result ≡ r.n * r.voltage.0 }
{
    u32::from(r.n) * u32::from(r.voltage.0)
}

// n × word 7: ten cells of 6000 mV come to 60000.
fn voltage_word(r: Rules) -> u16
    requires { r.n * r.voltage.0 ≤ 60000 }
    ensures { result ≡ r.n * r.voltage.0 }
{
    voltage_of(r) as u16
}

// A word that is 0 if a raised protection blocks charge.
fn unless_blocked(p: Pack, w: u16) -> u16
    ensures { result ≡ cond (blocks_any 0 p.protections) 0 w }
{
    if blocks(p.protections, 0) { 0 } else { w }
}

// Whether 5, 6 or 7 is raised.
#[tactic(auto, unfolding(crate::specs::Words::heat_raised))]
fn heat_raised(raised: u16) -> bool
    ensures { result ≡ heat_raised (has_bit raised) }
{
    has_bit(raised, 5) || has_bit(raised, 6) || has_bit(raised, 7)
}

// Battery status.
fn status(p: Pack) -> u16
    ensures { result ≡ status_of (said_of p) }
{
    let ps = p.protections;
    let raised = raised_word(ps);
    let charging = is_charging(p.rules.detection, p.latest.current);
    let w6 = with_bit_if(0, 6, !charging);
    let w7 = with_bit_if(w6, 7, true);
    let w11 = with_bit_if(w7, 11, blocks(ps, 1));
    let w12 = with_bit_if(w11, 12, heat_raised(raised));
    let w14 = with_bit_if(w12, 14, blocks(ps, 0));
    with_bit_if(w14, 15, has_bit(raised, 0))
}

// Bit i of 0x45: raised 0 to 7, the two switches, raised 8 and 9.
fn raised_or_on(raised: u16, on: u16, i: u8) -> bool
    ensures { result ≡ raised_or_on (has_bit raised) (has_bit on) i }
{
    if i < 8 {
        return has_bit(raised, i);
    }
    if i < 10 {
        return has_bit(on, i - 8);
    }
    has_bit(raised, i - 2)
}

// The raised protections, and the switches that are on.
fn raised_and_switches(p: Pack) -> u16
    requires { Watched p }
    ensures { result ≡ raised_and_switches (said_of p) }
{
    let raised = raised_word(p.protections);
    let on = switches(p);
    let mut w = 0;
    for i in 0..12 {
        w = with_bit_if(w, i, raised_or_on(raised, on, i));
    }
    w
}

// A word of the whole pack.
#[tactic(auto, unfolding(crate::specs::Words::pack_word))]
fn pack_word(p: Pack, w: PackWord) -> u16
    requires { Bounded p }
    ensures { result ≡ pack_word (said_of p) w }
{
    match w {
        PackWord::Temperature1 => p.latest.t1.0,
        PackWord::Temperature2 => p.latest.t2.0,
        PackWord::Sum => sum_word(p.latest),
        PackWord::Current => word_of(p.latest.current),
        PackWord::ChargingCurrent => unless_blocked(p, word_of(p.rules.current)),
        PackWord::ChargingVoltage => unless_blocked(p, voltage_word(p.rules)),
        PackWord::Status => status(p),
        PackWord::Mode => mode(p),
        PackWord::Raised => raised_and_switches(p),
        PackWord::Bled => p.balance.bled,
        PackWord::Outermost => numbers_word(p.latest),
    }
}

// Whether the words of a state come to 60000 at most. They do in every state that a load or a later call handed back.
#[tactic(auto, unfolding(crate::specs::Words::is_bounded))]
pub fn is_bounded(p: Pack) -> bool
    ensures { result ≡ is_bounded p }
{
    sum_to(p.latest.cells, p.latest.count) <= 60000 && voltage_of(p.rules) <= 60000
}

// The word of a row; 0 where there is none.
#[tactic(auto, unfolding(crate::specs::Words::sent_word))]
pub fn sent_word(p: Pack, row: Option<Sends>) -> u16
    requires { Bounded p }
    ensures { result ≡ sent_word (said_of p) row }
{
    match row {
        None => 0,
        Some(Sends::Cell(k)) => cell_word(p.latest.cells, k),
        Some(Sends::Whole(w)) => pack_word(p, w),
    }
}
