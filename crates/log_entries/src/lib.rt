// Entries: what a line of the log says, as a value. Each field is read as a part of the line.

#![tactic(auto)]

ghost use Rattle.std.specs.Prelude.{◌≡◌, [], ◌+◌, ◌≤◌, length, Some};
ghost use Rattle.text_fields.specs.Fields.{fields_of};
ghost use Rattle.log_entries.specs.Entry.{kind_of, entry_of, read_command, read_sample, read_entry};
ghost use Rattle.log_entries.specs.Left.{left};
ghost use Rattle.log_entries.specs.InTurn.{read_numbers, behind};
ghost use Rattle.log_entries.specs.Ahead.{rest_of, end_from, found_in, read_ahead, starts_sample};

use sample::Sample;
use text_number_at::{FieldNumber, four_tabbed, number_along, number_at};
use text_numbers::{past_minus, with_sign};
use units::{DeciKelvin, MilliVolts};

// What kind of line it is.
#[derive(Clone, Copy, Debug, PartialEq, Eq)]
pub enum Kind {
    Offer,
    Command,
    Malformed,
}

// A line as a value: the sample of an `S` line, the command of an `F` line; any other says nothing.
#[derive(Clone, Copy, Debug, PartialEq, Eq)]
pub enum Entry {
    Offer(Sample),
    Command(u16),
    Malformed,
}

impl Entry {
    // Of which kind a line is.
    pub fn kind(self) -> Kind
        ensures { result ≡ kind_of self }
    {
        match self {
            Entry::Offer(_) => Kind::Offer,
            Entry::Command(_) => Kind::Command,
            Entry::Malformed => Kind::Malformed,
        }
    }
}

// `F` has the command, and no other field.
fn read_command(line: &[u8], at: usize) -> Entry
    ensures { result ≡ read_command (left line.now at) }
{
    let n = line.len();
    if n < at {
        return Entry::Malformed;
    }
    let f = text_fields::field(line, at);
    if f.len() < n - at {
        return Entry::Malformed;
    }
    let Some(command) = text_numbers::read_number(f) else {
        return Entry::Malformed;
    };
    Entry::Command(command)
}

// The sample of an `S` line that has these numbers, and no more: behind the current's the two temperatures and the cells.
fn sampled(below: bool, numbers: [u16; 13], count: usize) -> Option<Sample>
    requires { count ≤ 13 }
    ensures { entry_of result ≡ behind below count numbers [] }
{
    if count < 3 {
        return None;
    }
    let current = with_sign(below, numbers[0])?;
    let mut cells = [MilliVolts(0); 10];
    for i in 0..10 {
        cells[i] = MilliVolts(numbers[i + 3]);
    }
    Some(Sample {
        count: (count - 3) as u8,
        cells,
        current,
        t1: DeciKelvin(numbers[1]),
        t2: DeciKelvin(numbers[2]),
    })
}

// The numbers of an `S` line, whose fields from `from` on are read alike, thirteen at most; `below` says that a minus stands before them.
fn read_numbers(line: &[u8], from: usize, below: bool) -> Entry
    requires { from ≤ length line.now + 1 }
    ensures { result ≡ read_numbers below (left line.now from) }
{
    let mut numbers: [u16; 13] = [0; 13];
    let mut count: usize = 0;
    let mut at = from;
    // Kept (no plainer): the place moves by what was read.
    while at <= line.len() {
        if 13 <= count {
            return Entry::Malformed;
        }
        let Some(FieldNumber { number, end }) = number_at(line, at) else {
            return Entry::Malformed;
        };
        numbers[count] = number;
        count += 1;
        at = end + 1;
    }
    match sampled(below, numbers, count) {
        Some(sample) => Entry::Offer(sample),
        None => Entry::Malformed,
    }
}

// `S` has current, temperature 1, temperature 2 and the cells; only the current may have a minus.
fn read_sample(line: &[u8], from: usize) -> Entry
    requires { from ≤ length line.now + 1 }
    ensures { result ≡ read_sample (left line.now from) }
{
    let start = past_minus(line, from);
    read_numbers(line, start, from < start)
}

// What a line says. A carriage return is in no field that can be read, so that it is not looked for.
pub fn read_entry(line: &[u8]) -> Entry
    ensures { result ≡ read_entry line.now }
{
    if 128 < line.len() {
        return Entry::Malformed;
    }
    match line {
        [b'S', b'\t', ..] => read_sample(line, 2),
        [b'F', b'\t', ..] => read_command(line, 2),
        _ => Entry::Malformed,
    }
}

// An `S` line that was read along: its newline stands at `end`, and `entry` is what it says.
#[derive(Clone, Copy)]
pub struct Ahead {
    pub end: usize,
    pub entry: Entry,
}

// The numbers of an `S` line from `from` on, up to its newline. Most have four digits and a tab behind them, which is asked first.
fn numbers_ahead(bytes: &[u8], from: usize, below: bool) -> Option<Ahead>
    ensures { result ≡ found_in bytes.now (end_from bytes.now from) (read_numbers below (fields_of (rest_of bytes.now from))) }
{
    let mut numbers: [u16; 13] = [0; 13];
    let mut count: usize = 0;
    let mut at = from;
    // Kept (no plainer): the place moves by what was read, and the line ends where its newline was found.
    loop {
        if 13 <= count {
            return None;
        }
        if let Some(number) = four_tabbed(bytes, at) {
            numbers[count] = number;
            count += 1;
            at += 5;
            continue;
        }
        let FieldNumber { number, end } = number_along(bytes, at)?;
        numbers[count] = number;
        count += 1;
        if bytes[end] == b'\n' {
            let sample = sampled(below, numbers, count)?;
            return Some(Ahead {
                end,
                entry: Entry::Offer(sample),
            });
        }
        at = end + 1;
    }
}

// Whether an `S` and a tab stand at `from`: both are looked at before anything is decided, which is one comparison for the machine.
fn starts_sample(bytes: &[u8], from: usize) -> bool
    requires { from + 2 ≤ length bytes.now }
    ensures { result ≡ starts_sample bytes.now from }
{
    (bytes[from] == b'S') & (bytes[from + 1] == b'\t')
}

// An `S` line that starts at `from`, read along up to its newline; nothing where the line does not end, or is no such line.
pub fn read_ahead(bytes: &[u8], from: usize) -> Option<Ahead>
    ensures { result ≡ read_ahead bytes.now from }
{
    let n = bytes.len();
    if n < from || n - from < 2 {
        return None;
    }
    if starts_sample(bytes, from) {
        let start = past_minus(bytes, from + 2);
        return numbers_ahead(bytes, start, from + 2 < start);
    }
    None
}
