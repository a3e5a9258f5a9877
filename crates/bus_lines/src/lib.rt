// The bus as text: one line for each command from 00 to ff, with the three bytes that answer it in hexadecimal, or `refused` and the number.

#![tactic(auto)]

ghost use Rattle.std.specs.Prelude.{◌≡◌, ◌∷◌, [], ◌++◌, ◌+◌, ◌<◌, ◌≤◌, length};
ghost use Rattle.text_writing.specs.Placing.{Put};
ghost use Rattle.text_writing.specs.Writers.{Puts};
ghost use Rattle.bus_lines.specs.Lines.{hex_digit, hex_byte, hex_bytes, refused_text, answer_text, line_for, word_line, roomed, roomed_line};

use bus::answer::Replied;
use bus::reply::reply;
use pack::Keeper;
use text_writing::Writer;

// The bytes of 256 lines: none has more than 15.
pub const ROOM: usize = 3840;

// The bytes of one line at most.
pub const LINE: usize = 15;

fn digit(v: u8) -> u8
    requires { v < 16 }
    ensures { result ≡ hex_digit v }
{
    if v < 10 {
        return b'0' + v;
    }
    b'a' - 10 + v
}

fn put_hex(w: &mut Writer<'_>, b: u8)
    requires { w.old.at + 2 ≤ length w.old.out.now }
    ensures { Puts w.old (hex_byte b) w.new }
{
    let high = digit(b / 16);
    let low = digit(b % 16);
    w.put_byte(high);
    w.put_byte(low);
}

fn put_three(w: &mut Writer<'_>, three: [u8; 3])
    requires { w.old.at + 6 ≤ length w.old.out.now }
    ensures put { Puts w.old (hex_bytes three) w.new }
    ensures three_len_bound { length (hex_bytes three) ≤ 11 }
{
    put_hex(w, three[0]);
    put_hex(w, three[1]);
    put_hex(w, three[2]);
}

fn put_refused(w: &mut Writer<'_>, number: u8)
    requires { w.old.at + 11 ≤ length w.old.out.now }
    ensures put { Puts w.old (refused_text number) w.new }
    ensures number_len_bound { length (refused_text number) ≤ 11 }
{
    w.put_bytes(b"refused\t");
    w.put_decimal(u32::from(number));
}

// What stands behind the command of a line.
fn put_answer(w: &mut Writer<'_>, answer: Replied, three: [u8; 3])
    requires { w.old.at + 11 ≤ length w.old.out.now }
    ensures put { Puts w.old (answer_text answer three) w.new }
    ensures three_len_bound { length (answer_text answer three) ≤ 11 }
{
    match answer {
        Ok(()) => put_three(w, three),
        Err(number) => put_refused(w, number),
    }
}

// The command of a line, and its tab.
fn put_command(w: &mut Writer<'_>, command: u8)
    requires { w.old.at + 3 ≤ length w.old.out.now }
    ensures { Puts w.old (hex_byte command ++ (9 ∷ [])) w.new }
{
    put_hex(w, command);
    w.put_byte(b'\t');
}

// The line of a command that was answered so, which has room.
fn put_answered(w: &mut Writer<'_>, command: u8, answer: Replied, three: [u8; 3])
    requires { w.old.at + 15 ≤ length w.old.out.now }
    ensures put { Puts w.old (line_for command answer three) w.new }
    ensures three_len_bound { length (line_for command answer three) ≤ 15 }
{
    put_command(w, command);
    put_answer(w, answer, three);
    w.put_byte(b'\n');
}

// Puts the line of a command that was answered so at `at` and answers the place behind it; where 15 bytes have no room nothing is written and
// the answer is `at`.
pub fn put_reply(out: &mut [u8], at: usize, command: u8, answer: Replied, three: [u8; 3]) -> usize
    ensures put { Put out.old at (roomed_line (length out.old) at (line_for command answer three)) result out.new }
    ensures three_len_bound { length (roomed_line (length out.old) at (line_for command answer three)) ≤ 15 }
{
    let mut w = Writer::new(out, at);
    if w.has_room(LINE) {
        put_answered(&mut w, command, answer, three);
    }
    w.at
}

fn put_line(w: &mut Writer<'_>, k: Keeper, command: u8)
    requires { w.old.at + 15 ≤ length w.old.out.now }
    ensures put { Puts w.old (word_line k command) w.new }
    ensures command_len_bound { length (word_line k command) ≤ 15 }
{
    let mut three = [0u8; 3];
    let answer = reply(k.pack, command, &mut three);
    put_answered(w, command, answer, three);
}

// Puts the 256 lines at the front of a buffer and answers how many bytes they have; where they have no room nothing is written.
pub fn put_words(k: Keeper, out: &mut [u8]) -> usize
    ensures put { Put out.old 0 (roomed (length out.old) k) result out.new }
    ensures upper_bound { result ≤ length out.old }
{
    if out.len() < ROOM {
        return 0;
    }
    let mut w = Writer::new(out, 0);
    let last = 255;
    for c in 0..=last {
        put_line(&mut w, k, c);
    }
    w.at
}
