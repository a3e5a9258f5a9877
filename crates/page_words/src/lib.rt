// The words of the settings page one by one: reading them, the ranges that they have, the levels that they stand for.

#![tactic(auto)]

ghost use Rattle.std.specs.Prelude.{◌≡◌, get_or};
ghost use Rattle.units.specs.Levels.{page_level};
ghost use Rattle.units.specs.Signed.{signed_of};
ghost use Rattle.protections.specs.Direction.{in_order};
ghost use Rattle.page_words.specs.Ranges.{word_at, within, degrees_fit, level_fits, level_of};

use protections::{Direction, Quantity};
use units::{PageLevel, signed_of};

// A byte of the page; past its end it reads as 0.
pub fn byte_at(page: &[u8], at: usize) -> u8
    ensures { result ≡ get_or page.now at 0 }
{
    page.get(at).copied().unwrap_or(0)
}

// Word i of the page, low byte first; past the end of the page it reads as 0.
#[tactic(auto, unfolding(crate::specs::Ranges::word_at))]
pub fn word_at(page: &[u8], i: u16) -> u16
    ensures { result ≡ word_at page.now i }
{
    let at = 2 * usize::from(i);
    u16::from_le_bytes([byte_at(page, at), byte_at(page, at + 1)])
}

// Whether a value is one of low..high.
#[tactic(auto, unfolding(crate::specs::Ranges::within))]
pub fn within(low: u16, high: u16, x: u16) -> bool
    ensures { result ≡ within low high x }
{
    (low..=high).contains(&x)
}

// Whether a level in degrees is in range.
#[tactic(auto, unfolding(crate::specs::Ranges::degrees_fit))]
fn degrees_fit(c: i16) -> bool
    ensures { result ≡ degrees_fit c }
{
    (-40..=120).contains(&c)
}

// Whether a trip or release word is in the range of what its protection looks at.
#[tactic(auto, unfolding(crate::specs::Ranges::level_fits))]
pub fn level_fits(quantity: Quantity, x: u16) -> bool
    ensures { result ≡ level_fits quantity x }
{
    match quantity {
        Quantity::HighestCell | Quantity::LowestCell => within(0, 6000, x),
        Quantity::Current => true,
        Quantity::Temperature1 | Quantity::Temperature2 => degrees_fit(signed_of(x)),
    }
}

// A trip or release word as the number that it stands for on the page: mV, mA or degrees.
#[tactic(auto, unfolding(crate::specs::Ranges::level_of))]
pub fn level_of(quantity: Quantity, x: u16) -> PageLevel
    ensures { result ≡ page_level (level_of quantity x) }
{
    match quantity {
        Quantity::HighestCell | Quantity::LowestCell => PageLevel(i32::from(x)),
        Quantity::Current | Quantity::Temperature1 | Quantity::Temperature2 => PageLevel(i32::from(
            signed_of(x),
        )),
    }
}

// Whether trip and release stand in the order of the direction.
pub fn in_order(direction: Direction, trip: PageLevel, release: PageLevel) -> bool
    ensures { result ≡ in_order direction trip.0 release.0 }
{
    match direction {
        Direction::Above => release < trip,
        Direction::Below => trip < release,
    }
}
