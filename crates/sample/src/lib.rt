// The quantities of a sample, which the protections look at: its highest and lowest cell, its current, its temperatures.

#![tactic(auto)]

ghost use Rattle.std.specs.Prelude.{◌≡◌};
ghost use Rattle.units.specs.Levels.{level};
ghost use Rattle.sample.specs.Cells.{widened, extremes_of};
ghost use Rattle.sample.specs.Measure.{measured};
ghost use Rattle.sample.specs.None.{no_sample};

use protections::Quantity;
use units::{CellNo, DeciKelvin, Level, MilliVolts, ten_at_most};

// A sample: the first `count` entries are cells 1 to `count`, and the entries past them are no cells.
#[repr(C)]
#[derive(Clone, Copy, Debug, PartialEq, Eq)]
pub struct Sample {
    pub count: u8,
    pub cells: [MilliVolts; 10],
    pub current: i16,
    pub t1: DeciKelvin,
    pub t2: DeciKelvin,
}

// A cell that was found: its number, and its millivolts.
#[derive(Clone, Copy, Debug, PartialEq, Eq)]
pub struct Found {
    pub number: CellNo,
    pub volts: MilliVolts,
}

// The highest and the lowest cell of a sample.
#[derive(Clone, Copy, Debug, PartialEq, Eq)]
pub struct Extremes {
    pub highest: Found,
    pub lowest: Found,
}

// What stands for a sample where there is none: no cell, and 0 throughout.
pub fn no_sample() -> Sample
    ensures { result ≡ no_sample }
{
    Sample {
        count: 0,
        cells: [MilliVolts(0); 10],
        current: 0,
        t1: DeciKelvin(0),
        t2: DeciKelvin(0),
    }
}

// ---- highest and lowest cell

// The extremes with one cell more; of two that are equal, the first.
#[tactic(auto, unfolding(crate::specs::Cells::widened))]
fn widened(e: Extremes, cell: Found) -> Extremes
    ensures { result ≡ widened e cell }
{
    let highest = if e.highest.volts < cell.volts {
        cell
    } else {
        e.highest
    };
    let lowest = if cell.volts < e.lowest.volts {
        cell
    } else {
        e.lowest
    };
    Extremes { highest, lowest }
}

// The highest and the lowest of the first `count` cells, of equal cells the one with the lowest number; of none, number 0 and 0 mV.
pub fn extremes_of(cells: [MilliVolts; 10], count: u8) -> Extremes
    ensures { result ≡ extremes_of cells count }
{
    let n = ten_at_most(count);
    if n == 0 {
        let none = Found {
            number: CellNo(0),
            volts: MilliVolts(0),
        };
        return Extremes {
            highest: none,
            lowest: none,
        };
    }
    let first = Found {
        number: CellNo(1),
        volts: cells[0],
    };
    let mut e = Extremes {
        highest: first,
        lowest: first,
    };
    // Kept (speed): ten turns, with a return behind the last cell, and not as many as there are cells: so the compiler writes the turns out.
    for i in 1..10 {
        if n <= i {
            return e;
        }
        e = widened(
            e,
            Found {
                number: CellNo((i + 1) as u8),
                volts: cells[i],
            },
        );
    }
    e
}

// ---- what a protection looks at

// The quantity of a sample whose extremes are e, as a level: millivolts, a current or a temperature becomes what levels are held against.
pub fn measured(q: Quantity, s: Sample, e: Extremes) -> Level
    ensures { result ≡ level (measured e q s) }
{
    match q {
        Quantity::HighestCell => Level(i32::from(e.highest.volts.0)),
        Quantity::LowestCell => Level(i32::from(e.lowest.volts.0)),
        Quantity::Current => Level(i32::from(s.current)),
        Quantity::Temperature1 => Level(i32::from(s.t1.0)),
        Quantity::Temperature2 => Level(i32::from(s.t2.0)),
    }
}
