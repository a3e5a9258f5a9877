// The kinds of number that may not be mixed, and a 16-bit word as a signed number and back.

#![tactic(auto)]

ghost use Rattle.std.specs.Prelude.{◌≡◌};
ghost use Rattle.units.specs.Cells.{ten_at_most};
ghost use Rattle.units.specs.Signed.{signed_of, word_of};

// Millivolts: a cell, the balance floor and difference, the charging voltage.
#[repr(C)]
#[derive(Clone, Copy, Debug, PartialEq, Eq, PartialOrd, Ord)]
pub struct MilliVolts(pub u16);

// Tenths of a kelvin: a temperature sample.
#[repr(C)]
#[derive(Clone, Copy, Debug, PartialEq, Eq, PartialOrd, Ord)]
pub struct DeciKelvin(pub u16);

// The number of a cell, from 1 as document 01 counts them.
#[repr(C)]
#[derive(Clone, Copy, Debug, PartialEq, Eq, PartialOrd, Ord)]
pub struct CellNo(pub u8);

// The number p of a protection, from 0.
#[derive(Clone, Copy, Debug, PartialEq, Eq, PartialOrd, Ord)]
pub struct ProtectionNo(pub u8);

// What a protection looks at and the levels it is held against, in the unit of the samples: mV, mA or tenths of a kelvin.
#[repr(C)]
#[derive(Clone, Copy, Debug, PartialEq, Eq, PartialOrd, Ord)]
pub struct Level(pub i32);

// A trip or release level in the unit of the page: mV, mA or degrees.
#[derive(Clone, Copy, Debug, PartialEq, Eq, PartialOrd, Ord)]
pub struct PageLevel(pub i32);

// How many entries of an array of ten are cells: a number over ten stands for ten.
pub fn ten_at_most(count: u8) -> usize
    ensures { result ≡ ten_at_most count }
{
    usize::from(count.min(10))
}

// A word read as a signed number. Currents and the page's signed levels come in this way.
pub fn signed_of(word: u16) -> i16
    ensures { result ≡ signed_of word }
{
    word.cast_signed()
}

// A signed number as the word that is sent for it.
pub fn word_of(number: i16) -> u16
    ensures { result ≡ word_of number }
{
    number.cast_unsigned()
}
