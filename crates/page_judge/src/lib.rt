// The settings page: the judge that gives refusals 1 to 8, for a page of 128 bytes and for one of 160.

#![tactic(auto)]

ghost use Rattle.std.specs.Prelude.{◌≡◌};
ghost use Rattle.refusals.specs.Refusals.{given};
ghost use Rattle.refusals.specs.Answers.{answer_of};
ghost use Rattle.page_judge.specs.Page.{read_backwards, refusals, judged};
ghost use Rattle.page_judge.specs.Walk.{lowest_word, faults_of};

use page_faults::{Layout, check_at, layout_of, meets};
use page_words::word_at;
use refusals::{Refusal, Verdict, refused};

// The lowest word of the page that does not meet the row.
fn lowest_word(page: &[u8], layout: Layout, row: u8) -> Verdict
    ensures { result ≡ lowest_word layout row page.now }
{
    for i in 0..=layout.last {
        if !meets(page, layout, row, i) {
            return Err(Refusal {
                number: row,
                word: i,
            });
        }
    }
    Ok(())
}

// Refusals 5 to 8: the lowest number, and its lowest word.
#[tactic(auto, unfolding(crate::specs::Walk::faults_of))]
fn faults_of(page: &[u8], layout: Layout) -> Verdict
    ensures { result ≡ faults_of layout page.now }
{
    lowest_word(page, layout, 5)?;
    lowest_word(page, layout, 6)?;
    lowest_word(page, layout, 7)?;
    lowest_word(page, layout, 8)
}

// Whether word 0 is one of the two marks read backwards.
fn read_backwards(mark: u16) -> bool
    ensures { result ≡ read_backwards mark }
{
    mark == 0xA417 || mark == 0xA517
}

// The verdict on a page of any length. It reads the page and changes nothing.
pub fn judge(page: &[u8]) -> Verdict
    ensures { (result ≡ judged page.now) × (answer_of result ≡ given (refusals page.now)) }
{
    let layout = layout_of(page.len());
    let end = check_at(layout);
    if page.len() != end + 1 {
        return refused(1);
    }
    let mark = word_at(page, 0);
    if read_backwards(mark) {
        return refused(2);
    }
    if mark != layout.mark {
        return refused(3);
    }
    let before = &page[..end];
    if page[end] != crc::check_byte(before) {
        return refused(4);
    }
    faults_of(page, layout)
}
