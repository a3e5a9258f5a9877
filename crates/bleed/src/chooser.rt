// Which cells to bleed: the walk over the cells that want and do not rest.
ghost use Rattle.std.specs.Prelude.{◌≡◌};
ghost use Rattle.bleed_wants.specs.Word.{holds_cell};
ghost use Rattle.bleed.specs.Walk.Word.{with_cell_if};
ghost use Rattle.bleed.specs.Walk.Steps.{is_cell, Chosen, beside_taken, may_take, take_one};
ghost use Rattle.bleed.specs.Walk.Reached.{walked, taken_word};

use crate::resting::next_cell;
use laws::{has_bit, with_bit_if};
use units::CellNo;

// Cell k's bit, k - 1, is set in a word of cells; there is no cell 0.
#[tactic(auto, unfolding(bleed_wants::specs::Word::holds_cell))]
fn holds_cell(word: u16, cell: CellNo) -> bool
    ensures { result ≡ holds_cell word cell.0 }
{
    0 < cell.0 && has_bit(word, cell.0 - 1)
}

// The word with the cell's bit set where `on` holds.
#[tactic(auto, unfolding(crate::specs::Walk::Word::with_cell_if))]
fn with_cell_if(word: u16, cell: CellNo, on: bool) -> u16
    ensures { result ≡ with_cell_if on word cell.0 }
{
    if 0 < cell.0 {
        with_bit_if(word, cell.0 - 1, on)
    } else {
        word
    }
}

// A neighbour of cell k is taken already: k - 1, whose bit is k - 2, or k + 1, whose bit is k.
#[tactic(auto, unfolding(crate::specs::Walk::Steps::beside_taken))]
fn beside_taken(taken: u16, cell: CellNo) -> bool
    ensures { result ≡ beside_taken taken cell.0 }
{
    let k = cell.0;
    (1 < k && has_bit(taken, k - 2)) || has_bit(taken, k)
}

// The walk takes the cell: it wants, isn't resting, has no neighbour taken, and fewer than `most` (K) are taken.
#[tactic(auto, unfolding(crate::specs::Walk::Steps::may_take))]
fn may_take(most: u8, want: u16, rest: u16, taken: u16, cell: CellNo) -> bool
    ensures { result ≡ may_take most want rest taken cell.0 }
{
    holds_cell(want, cell)
        && !holds_cell(rest, cell)
        && !beside_taken(taken, cell)
        && taken.count_ones() < u32::from(most)
}

// The taken cells after one cell more was asked.
#[tactic(auto, unfolding(crate::specs::Walk::Steps::take_one, crate::specs::Walk::Word::with_cell_if, laws::specs::Bits::with_bit_if))]
fn take_one(most: u8, want: u16, rest: u16, taken: u16, cell: CellNo) -> u16
    ensures { result ≡ take_one most want rest taken cell.0 }
{
    if may_take(most, want, rest, taken, cell) {
        with_cell_if(taken, cell, true)
    } else {
        taken
    }
}

// The cell is one of the cells 1 to n, and they are ten at most.
#[tactic(auto, unfolding(crate::specs::Walk::Steps::is_cell))]
fn is_cell(n: u8, cell: CellNo) -> bool
    ensures { result ≡ is_cell n cell.0 }
{
    0 < cell.0 && cell.0 <= n && n <= 10
}

// What the walk over all cells takes, each asked once, from the start cell on; if it reaches the cell `until`, it ends there.
fn walk(n: u8, most: u8, want: u16, rest: u16, start: CellNo, until: Option<CellNo>) -> u16
    ensures { result ≡ walked until n n most want rest start.0 0 }
{
    let mut taken: u16 = 0;
    let mut cell = start;
    for _ in 0..n {
        if until == Some(cell) {
            return taken;
        }
        taken = take_one(most, want, rest, taken, cell);
        cell = next_cell(n, cell);
    }
    taken
}

// The cells to bleed, `most` (K) at most: every cell is asked once, from the start cell on. A start that is no cell gives none.
pub fn choose(n: u8, most: u8, want: u16, rest: u16, start: CellNo) -> u16
    ensures { Chosen n most want rest start.0 result }
{
    // The walk takes a cell only if it wants bleeding.
    if want == 0 || !is_cell(n, start) {
        return 0;
    }
    walk(n, most, want, rest, start, None)
}

// The cells that the walk has taken when it reaches a cell; if it reaches the cell nowhere, all that it takes. A start that is no cell
// gives none.
pub fn taken_before(n: u8, most: u8, want: u16, rest: u16, start: CellNo, reached: CellNo) -> u16
    ensures { result ≡ taken_word n most want rest start.0 reached.0 }
{
    if !is_cell(n, start) {
        return 0;
    }
    walk(n, most, want, rest, start, Some(reached))
}
