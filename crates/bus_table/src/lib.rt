// The commands of the bus: what each of them sends.

#![tactic(auto)]

ghost use Rattle.std.specs.Prelude.{◌≡◌};
ghost use Rattle.bus_table.specs.Table.{row_of_command};

use units::CellNo;

// The words that a pack has one of.
#[derive(Clone, Copy, Debug, PartialEq, Eq)]
pub enum PackWord {
    Temperature1,
    Temperature2,
    Sum,
    Current,
    ChargingCurrent,
    ChargingVoltage,
    Status,
    Mode,
    Raised,
    Bled,
    Outermost,
}

// What a command sends: a cell, or a word of the whole pack.
#[derive(Clone, Copy, Debug, PartialEq, Eq)]
pub enum Sends {
    Cell(CellNo),
    Whole(PackWord),
}

// What a command sends: document 01's table, in its order, and behind it the command of document 02. What isn't in it sends nothing.
#[tactic(auto, unfolding(crate::specs::Table::row_of_command, crate::specs::Table::table))]
pub fn row_of_command(command: u8) -> Option<Sends>
    ensures { result ≡ row_of_command command }
{
    match command {
        0x08 => Some(Sends::Whole(PackWord::Temperature1)),
        0x44 => Some(Sends::Whole(PackWord::Temperature2)),
        0x09 => Some(Sends::Whole(PackWord::Sum)),
        0x42 => Some(Sends::Whole(PackWord::Sum)),
        0x0A => Some(Sends::Whole(PackWord::Current)),
        0x14 => Some(Sends::Whole(PackWord::ChargingCurrent)),
        0x15 => Some(Sends::Whole(PackWord::ChargingVoltage)),
        0x16 => Some(Sends::Whole(PackWord::Status)),
        0x30 => Some(Sends::Cell(CellNo(1))),
        0x31 => Some(Sends::Cell(CellNo(2))),
        0x32 => Some(Sends::Cell(CellNo(3))),
        0x33 => Some(Sends::Cell(CellNo(4))),
        0x34 => Some(Sends::Cell(CellNo(5))),
        0x35 => Some(Sends::Cell(CellNo(6))),
        0x36 => Some(Sends::Cell(CellNo(7))),
        0x37 => Some(Sends::Cell(CellNo(8))),
        0x38 => Some(Sends::Cell(CellNo(9))),
        0x39 => Some(Sends::Cell(CellNo(10))),
        0x41 => Some(Sends::Whole(PackWord::Mode)),
        0x45 => Some(Sends::Whole(PackWord::Raised)),
        0x46 => Some(Sends::Whole(PackWord::Bled)),
        0x47 => Some(Sends::Whole(PackWord::Outermost)),
        _ => None,
    }
}
