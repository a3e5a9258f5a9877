// What is kept from one sample to the next: the cell after a cell, the runs of bled samples, and who rests by them.
ghost use Rattle.std.specs.Prelude.{◌≡◌, ◌&&◌, leb, ltb};
ghost use Rattle.bleed.specs.Resting.Steps.{next_cell, next_runs, resting_word};

use laws::{has_bit, next_run, with_bit_if};
use units::CellNo;

// The cell after a cell, from n to 1: so the start cell goes on from sample to sample, and the walk from cell to cell.
#[tactic(auto, unfolding(crate::specs::Resting::Steps::next_cell))]
pub fn next_cell(n: u8, cell: CellNo) -> CellNo
    ensures { result ≡ record { 0 = next_cell n cell.0 } }
{
    if cell.0 < n {
        CellNo(cell.0 + 1)
    } else {
        CellNo(1)
    }
}

// The run counters after a sample, for each of the ten cells at how many of the latest in a row it was bled.
pub fn next_runs(bled: u16, runs: [u8; 10]) -> [u8; 10]
    ensures { result ≡ next_runs bled runs }
{
    // No cell was bled: every run ends.
    if bled == 0 {
        return [0; 10];
    }
    let mut next = runs;
    for (i, run) in next.iter_mut().enumerate() {
        *run = next_run(has_bit(bled, i as u8), *run);
    }
    next
}

// Cell `at` + 1 rests: it is a cell of the pack, and its run has reached the limit R.
fn rests_one(n: u8, limit: u8, at: u8, run: u8) -> bool
    ensures { result ≡ ltb at n && leb limit run }
{
    at < n && limit <= run
}

// The word of the cells that rest, of cells 1 to n: none if no cell was bled at the sample before, else those whose run has
// reached the limit R. All ten entries are asked.
pub fn resting_word(n: u8, limit: u8, bled: u16, runs: [u8; 10]) -> u16
    ensures { result ≡ resting_word n limit bled runs }
{
    if bled == 0 {
        return 0;
    }
    let mut word: u16 = 0;
    for (i, run) in runs.iter().enumerate() {
        let on = rests_one(n, limit, i as u8, *run);
        word = with_bit_if(word, i as u8, on);
    }
    word
}
