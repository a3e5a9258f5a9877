// Answers: the text of what a line is answered with, and of what is written before the lines.

#![tactic(auto)]

ghost use Rattle.std.specs.Prelude.{◌+◌, ◌≤◌, length};
ghost use Rattle.text_writing.specs.Placing.{Put};
ghost use Rattle.text_writing.specs.Writers.{Puts};
ghost use Rattle.text_writing.specs.Rows.{field_text};
ghost use Rattle.log_texts.specs.Texts.{decision_text, refused_text, page_text, told_text, opening_text};
ghost use Rattle.log_texts.specs.Room.{room, roomed, Opened};

use log_answers::Told;
use pack_shown::Decision;
use refusals::{Refusal, Verdict};
use text_writing::Writer;

// The bytes of the longest answer to a line, which is a row.
pub const ROOM: usize = text_writing::ROW;

// ---- a line

// A number, and the tab or the newline behind it. Both have room.
fn put_field(w: &mut Writer<'_>, v: u8, end: u8)
    requires { w.old.at + length (field_text v end) ≤ length w.old.out.now }
    ensures { Puts w.old (field_text v end) w.new }
{
    w.put_decimal(u32::from(v));
    w.put_byte(end);
}

fn put_decision(w: &mut Writer<'_>, d: Decision)
    requires { w.old.at + 35 ≤ length w.old.out.now }
    ensures put { Puts w.old (decision_text d) w.new }
    ensures d_len_bound { length (decision_text d) ≤ 35 }
{
    w.put_row(d.tick, d.raised, d.fets, d.balance, d.mode);
}

fn put_refused(w: &mut Writer<'_>, number: u8)
    requires { w.old.at + 35 ≤ length w.old.out.now }
    ensures put { Puts w.old (refused_text number) w.new }
    ensures number_len_bound { length (refused_text number) ≤ 35 }
{
    w.put_bytes(b"refused\t");
    put_field(w, number, b'\n');
}

// What is put for an answer, which has room.
fn put_answer(w: &mut Writer<'_>, t: Told)
    requires { w.old.at + 35 ≤ length w.old.out.now }
    ensures put { Puts w.old (told_text t) w.new }
    ensures t_len_bound { length (told_text t) ≤ 35 }
{
    match t {
        Ok(d) => put_decision(w, d),
        Err(number) => put_refused(w, number),
    }
}

// Puts the text of an answer at `at` and answers the place behind it; where the longest answer has no room nothing is written and the
// answer is `at`.
pub fn put_told(out: &mut [u8], at: usize, t: Told) -> usize
    ensures put { Put out.old at (roomed (length out.old) at (told_text t)) result out.new }
    ensures t_len_bound { length (roomed (length out.old) at (told_text t)) ≤ room }
{
    let mut w = Writer::new(out, at);
    if w.has_room(ROOM) {
        put_answer(&mut w, t);
    }
    w.at
}

// ---- what is written before the lines

fn put_page(w: &mut Writer<'_>, r: Refusal)
    requires { w.old.at + 35 ≤ length w.old.out.now }
    ensures { Puts w.old (page_text r.number r.word) w.new }
{
    w.put_bytes(b"page\t");
    put_field(w, r.number, b'\t');
    put_field(w, r.word, b'\n');
}

fn put_before(w: &mut Writer<'_>, verdict: Verdict)
    requires { w.old.at + 35 ≤ length w.old.out.now }
    ensures { Puts w.old (opening_text verdict) w.new }
{
    match verdict {
        Ok(()) => w.put_bytes(b"tick\traised\tfets\tbalance\tmode\n"),
        Err(r) => put_page(w, r),
    }
}

// Writes the header, or for a refused page its one line; where the longest answer has no room nothing is written.
pub fn put_opening(out: &mut [u8], verdict: Verdict) -> usize
    ensures { Opened out.old verdict result out.new }
{
    let mut w = Writer::new(out, 0);
    if w.has_room(ROOM) {
        put_before(&mut w, verdict);
    }
    w.at
}
