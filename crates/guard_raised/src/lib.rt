// What the raised protections say: the word of them, and which switches they block.

#![tactic(auto)]

ghost use Rattle.std.specs.Prelude.{◌≡◌};
ghost use Rattle.guard.specs.Runs.{is_raised};
ghost use Rattle.protections.specs.Table.{protections};
ghost use Rattle.guard_raised.specs.Words.{raised_at, blocks_at, raised_word, blocks_one, blocks_any};
ghost use Rattle.guard_raised.specs.Lowest.{lowest_of};

use guard::rule::{Alarm, Protection};
use laws::{has_bit, with_bit_if};
use protections::PROTECTIONS;
use units::ProtectionNo;

fn is_raised(a: Alarm) -> bool
    ensures { result ≡ is_raised a }
{
    matches!(a, Alarm::Raised(_))
}

// Bit p for raised p.
// Kept (no plainer): the words of bits of three crates (here, who wants, who rests) stay apart: one function of a closure would be as long as the loop.
pub fn raised_word(ps: [Protection; PROTECTIONS]) -> u16
    ensures { result ≡ raised_word ps }
{
    let mut w: u16 = 0;
    for (i, p) in ps.iter().enumerate() {
        w = with_bit_if(w, i as u8, is_raised(p.alarm));
    }
    w
}

// Whether this protection is raised and its mask has the switch's bit.
#[tactic(auto, unfolding(crate::specs::Words::blocks_one))]
fn blocks_one(p: Protection, switch: u8) -> bool
    ensures { result ≡ blocks_one switch p }
{
    is_raised(p.alarm) && has_bit(u16::from(p.limits.mask), switch)
}

// Whether a raised protection blocks the switch: 0 is charge, 1 is discharge.
pub fn blocks(ps: [Protection; PROTECTIONS], switch: u8) -> bool
    ensures { result ≡ blocks_any switch ps }
{
    ps.iter().any(|p| blocks_one(*p, switch))
}

// The lowest raised protection; the number past the last one where none is.
// Kept (promise): no Option, here and below, since `lowest_of`, which the clause and pack_why's definitions cite, says that number.
pub fn lowest_raised(ps: [Protection; PROTECTIONS]) -> ProtectionNo
    ensures { result ≡ record { 0 = lowest_of (raised_at ps) protections } }
{
    let at = ps.iter().position(|p| is_raised(p.alarm));
    ProtectionNo(at.unwrap_or(PROTECTIONS) as u8)
}

// The lowest raised protection that blocks the switch, 0 for charge and 1 for discharge; the number past the last one where none does.
pub fn lowest_blocking(ps: [Protection; PROTECTIONS], switch: u8) -> ProtectionNo
    ensures { result ≡ record { 0 = lowest_of (blocks_at switch ps) protections } }
{
    let at = ps.iter().position(|p| blocks_one(*p, switch));
    ProtectionNo(at.unwrap_or(PROTECTIONS) as u8)
}
