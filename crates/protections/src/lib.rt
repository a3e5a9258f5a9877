// The table of the protections, document 01's eight and document 02's two: what each looks at, which way it trips, its mode number.

#![tactic(auto)]

ghost use Rattle.std.specs.Prelude.{◌≡◌};
ghost use Rattle.protections.specs.Direction.{back_of};
ghost use Rattle.protections.specs.Table.{row_at};

use units::{Level, ProtectionNo};

// How many protections a pack state holds. A page has them all, or the first eight.
pub const PROTECTIONS: usize = 10;

// What a protection looks at in a sample.
#[derive(Clone, Copy, Debug, PartialEq, Eq)]
pub enum Quantity {
    HighestCell,
    LowestCell,
    Current,
    Temperature1,
    Temperature2,
}

// A protection trips at or above its trip level, or at or below it.
#[derive(Clone, Copy, Debug, PartialEq, Eq)]
pub enum Direction {
    Above,
    Below,
}

// The direction in which a protection releases: the other one.
pub fn back_of(d: Direction) -> Direction
    ensures { result ≡ back_of d }
{
    match d {
        Direction::Above => Direction::Below,
        Direction::Below => Direction::Above,
    }
}

// What a page says of one protection: its levels, in the unit of what it looks at, the two run lengths, the switch mask.
#[repr(C)]
#[derive(Clone, Copy, Debug, PartialEq, Eq)]
pub struct Limits {
    pub trip: Level,
    pub release: Level,
    pub n: u8,
    pub m: u8,
    pub mask: u8,
}

// A row of the table. The mode is the number that the raised protection gives command 0x41, if it has one.
#[derive(Clone, Copy, Debug, PartialEq, Eq)]
pub struct Row {
    pub quantity: Quantity,
    pub direction: Direction,
    pub mode: Option<u8>,
}

// The row of protection p. A number past the table reads as its last row.
#[tactic(auto, unfolding(crate::specs::Table::row_at, crate::specs::Table::table))]
pub fn row_of(p: ProtectionNo) -> Row
    ensures { result ≡ row_at p.0 }
{
    let (quantity, direction, mode) = match p.0 {
        0 => (Quantity::HighestCell, Direction::Above, Some(0x15)),
        1 => (Quantity::LowestCell, Direction::Below, None),
        2 => (Quantity::Current, Direction::Above, Some(0x12)),
        3 => (Quantity::Current, Direction::Below, Some(0x13)),
        4 => (Quantity::Current, Direction::Below, Some(0x14)),
        5 => (Quantity::Temperature1, Direction::Above, Some(0x10)),
        6 => (Quantity::Temperature1, Direction::Above, Some(0x11)),
        7 => (Quantity::Temperature2, Direction::Above, Some(0x16)),
        // 8, charge cold, and 9, discharge cold.
        _ => (Quantity::Temperature1, Direction::Below, None),
    };
    Row {
        quantity,
        direction,
        mode,
    }
}
