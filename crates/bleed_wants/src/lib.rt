// Who wants bleeding: one cell's wish, and the wishes of a pack as a word, bit k - 1 for cell k.

#![tactic(auto)]

ghost use Rattle.std.specs.Prelude.{◌≡◌, ◌&&◌, leb, ltb};
ghost use Rattle.bleed_wants.specs.Wants.{is_charging};
ghost use Rattle.bleed_wants.specs.Steps.{wanting_word};

use laws::with_bit_if;
use units::MilliVolts;

// The current is at least the charge detection current.
pub fn is_charging(detection: i16, current: i16) -> bool
    ensures { result ≡ is_charging detection current }
{
    detection <= current
}

// Cell `at` + 1 wants while the pack charges and no protection is raised: it is a cell of the pack, at or above the floor, and above
// `over`, the lowest cell and the difference.
fn wants_at(n: u8, at: u8, floor: MilliVolts, over: u32, cell: MilliVolts) -> bool
    ensures { result ≡ ltb at n && (leb floor.0 cell.0 && ltb over cell.0) }
{
    at < n && floor <= cell && over < u32::from(cell.0)
}

// The word of the cells that want bleeding, of cells 1 to n: bit k - 1 for cell k. All ten entries are asked.
pub fn wanting_word(
    n: u8,
    charging: bool,
    raised: bool,
    floor: MilliVolts,
    difference: MilliVolts,
    lowest: MilliVolts,
    cells: [MilliVolts; 10],
) -> u16
    ensures { result ≡ wanting_word n charging raised floor.0 difference.0 lowest.0 cells }
{
    // A cell wants only if the current is at least the charge detection current, and no protection is raised.
    if !charging || raised {
        return 0;
    }
    // They may come to more than 16 bits hold.
    let over = u32::from(lowest.0) + u32::from(difference.0);
    let mut word: u16 = 0;
    for (i, cell) in cells.iter().enumerate() {
        let on = wants_at(n, i as u8, floor, over, *cell);
        word = with_bit_if(word, i as u8, on);
    }
    word
}
