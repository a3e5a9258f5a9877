// The two layouts of a settings page, what each word of it is, and what rows 5 to 8 of the refusal table ask of it.

#![tactic(auto)]

ghost use Rattle.std.specs.Prelude.{◌≡◌};
ghost use Rattle.page_faults.specs.Kinds.{layout_of, check_at, trip_word, front_kind, part_kind, kind_of};
ghost use Rattle.page_faults.specs.Met.{level_met, order_met, on_row, kind_meets, meets};

use page_words::{byte_at, in_order, level_fits, level_of, within, word_at};
use protections::row_of;
use units::ProtectionNo;

// What a page of one kind looks like: its mark, how many protections it has from word 16 on, and its last word.
#[derive(Clone, Copy, Debug, PartialEq, Eq)]
pub struct Layout {
    pub mark: u16,
    pub protections: u8,
    pub last: u8,
}

// What a word of the page is.
#[derive(Clone, Copy, Debug, PartialEq, Eq)]
pub enum Kind {
    Mark,
    // One of words 1 to 8, a number of low..high.
    Setting { low: u16, high: u16 },
    Reserved,
    // The two levels of a protection.
    Trip(ProtectionNo),
    Release(ProtectionNo),
    // N, M or switch mask of a protection, a number of low..high.
    Limit { low: u16, high: u16 },
    Last,
    // No word of the page.
    Outside,
}

// The layout of a page, by its length: document 02's page of 160 bytes, or document 01's of 128.
pub fn layout_of(bytes: usize) -> Layout
    ensures { result ≡ layout_of bytes }
{
    if bytes == 160 {
        return Layout {
            mark: 0x17A5,
            protections: 10,
            last: 79,
        };
    }
    Layout {
        mark: 0x17A4,
        protections: 8,
        last: 63,
    }
}

// The place of the check byte, the page's last byte.
pub fn check_at(layout: Layout) -> usize
    ensures { result ≡ check_at layout }
{
    2 * usize::from(layout.last) + 1
}

// The first of the five words of protection p.
pub fn trip_word(p: ProtectionNo) -> u16
    ensures { result ≡ trip_word p.0 }
{
    16 + 5 * u16::from(p.0)
}

// Words 0 to 15.
fn front_kind(i: u8) -> Kind
    ensures { result ≡ front_kind i }
{
    match i {
        0 => Kind::Mark,
        1 => Kind::Setting { low: 2, high: 10 },
        2 => Kind::Setting { low: 1, high: 5 },
        3 => Kind::Setting { low: 1, high: 240 },
        4 => Kind::Setting { low: 0, high: 6000 },
        5 => Kind::Setting { low: 1, high: 6000 },
        6 => Kind::Setting {
            low: 1,
            high: 32767,
        },
        7 => Kind::Setting { low: 0, high: 6000 },
        8 => Kind::Setting {
            low: 0,
            high: 32767,
        },
        _ => Kind::Reserved,
    }
}

// Word f of the five of protection p.
fn part_kind(p: ProtectionNo, f: u8) -> Kind
    ensures { result ≡ part_kind p f }
{
    match f {
        0 => Kind::Trip(p),
        1 => Kind::Release(p),
        2 => Kind::Limit { low: 1, high: 240 },
        3 => Kind::Limit { low: 1, high: 240 },
        _ => Kind::Limit { low: 0, high: 3 },
    }
}

// What word i of a page is.
#[tactic(auto, unfolding(crate::specs::Kinds::kind_of))]
pub fn kind_of(layout: Layout, i: u8) -> Kind
    ensures { result ≡ kind_of layout i }
{
    if i < 16 {
        return front_kind(i);
    }
    if u16::from(i) < trip_word(ProtectionNo(layout.protections)) {
        return part_kind(ProtectionNo((i - 16) / 5), (i - 16) % 5);
    }
    if i < layout.last {
        return Kind::Reserved;
    }
    if i == layout.last {
        return Kind::Last;
    }
    Kind::Outside
}

// Whether a trip or release word is in the range of what protection p looks at.
#[tactic(auto, unfolding(crate::specs::Met::level_met))]
fn level_met(p: ProtectionNo, x: u16) -> bool
    ensures { result ≡ level_met p.0 x }
{
    level_fits(row_of(p).quantity, x)
}

// Whether the trip and release words of protection p are in order.
#[tactic(auto, unfolding(crate::specs::Met::order_met))]
fn order_met(p: ProtectionNo, trip: u16, release: u16) -> bool
    ensures { result ≡ order_met p.0 trip release }
{
    let row = row_of(p);
    in_order(
        row.direction,
        level_of(row.quantity, trip),
        level_of(row.quantity, release),
    )
}

// What row `number` asks: it asks nothing where another row is looked at.
#[tactic(auto, unfolding(crate::specs::Met::on_row))]
fn on_row(number: u8, row: u8, met: bool) -> bool
    ensures { result ≡ on_row number row met }
{
    row != number || met
}

// Whether word i, if it is of that kind, meets the row, one of 5 to 8, of the refusal table.
#[tactic(auto, unfolding(crate::specs::Met::kind_meets))]
fn kind_meets(page: &[u8], kind: Kind, row: u8, i: u8) -> bool
    ensures { result ≡ kind_meets kind row page.now i }
{
    let x = word_at(page, u16::from(i));
    match kind {
        Kind::Mark => true,
        Kind::Setting { low, high } => on_row(6, row, within(low, high, x)),
        Kind::Reserved => on_row(5, row, x == 0),
        Kind::Trip(p) => {
            if row == 8 {
                return order_met(p, x, word_at(page, u16::from(i) + 1));
            }
            on_row(7, row, level_met(p, x))
        }
        Kind::Release(p) => on_row(7, row, level_met(p, x)),
        Kind::Limit { low, high } => on_row(7, row, within(low, high, x)),
        Kind::Last => on_row(5, row, byte_at(page, 2 * usize::from(i)) == 0),
        Kind::Outside => true,
    }
}

// Whether word i meets the row.
#[tactic(auto, unfolding(crate::specs::Met::meets))]
pub fn meets(page: &[u8], layout: Layout, row: u8, i: u8) -> bool
    ensures { result ≡ meets layout row page.now i }
{
    kind_meets(page, kind_of(layout, i), row, i)
}
