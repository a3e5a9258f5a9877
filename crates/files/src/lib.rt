// Files, for the programs alone: words of the call, files that are read, what is written and said. It stands over the standard library, whose calls
// of the system are taken as they are. Whatever cannot be done is said on standard error, with the file's name in front, and the answer is an error.
// A read that a signal interrupts counts as one that failed.

#![tactic(auto)]

ghost use Rattle.std.specs.Prelude.{◌≡◌, ◌≢◌, ℕ, true, ◌≤◌, length, Ok, Err, IfOk, IsOkUnless};
ghost use Rattle.std.specs.Process.{exit_status};
ghost use Rattle.files.specs.declared.Stop.TheVariants.{Failed, Refused};
ghost use Rattle.files.specs.Statuses.{status_of};

use std::env::{Env, FillError};
use std::fmt::InlineText;
use std::fs::File;
use std::io::{Error, Print, Read};
use std::os::fd::AsRawFd;
use std::process::ExitCode;
use std::{io, str};

// A loop over a file that may never end is proved to end by a count: 2^64 - 1 turns, more than any file has bytes.
pub const TURNS: u64 = u64::MAX;

// The status that a program ends with: all was done, something could not be done and was said, or the page is refused.
pub const DONE: u8 = 0;

pub const FAILED: u8 = 1;

pub const REFUSED: u8 = 3;

// The system's number for text that is no text.
const NO_TEXT: i32 = 84;

// Why a program stops before all is done: something could not be done and was said, or the page is refused and that was written.
#[derive(Clone, Copy, Debug, PartialEq, Eq)]
pub enum Stop {
    Failed,
    Refused,
}

// What says how a program ends: a status, or whether all was done. A clause sees the status that is said, and what is said where something could
// not be done.
pub trait Ending: Copy {
    ghost said: { Self → ℕ };

    ghost failure: { Self };

    fn status(self) -> u8
        ensures { result ≡ said self };

    fn failed() -> Self
        ensures { result ≡ failure };
}

impl Ending for u8 {
    ghost said = { λ status. status };

    ghost failure = { 1 };

    fn status(self) -> u8 {
        self
    }

    fn failed() -> u8 {
        FAILED
    }
}

impl Ending for Result<(), Stop> {
    ghost said = { status_of };

    ghost failure = { Err Failed };

    fn status(self) -> u8 {
        match self {
            Ok(()) => DONE,
            Err(Stop::Failed) => FAILED,
            Err(Stop::Refused) => REFUSED,
        }
    }

    fn failed() -> Result<(), Stop> {
        Err(Stop::Failed)
    }
}

// A file that is open to be read, and its name for what is said of it. Whoever opened one by other means makes it of the three.
#[derive(Drop)]
pub struct Input<'a> {
    pub rt: &'a HostRuntime,
    pub name: &'a [u8],
    pub file: File,
}

// What waits to be answered: how many bytes of the buffer, and whether the file has ended.
#[derive(Clone, Copy)]
pub struct More {
    // Kept (promise): `done_value` of `read_more` says both of a file that has ended, and the clauses that say that a program answers only where
    // its file has ended name this field.
    pub ended: bool,
    pub have: usize,
}

// A page and a log that are open: the page, the log, and how many of its first bytes are read.
#[derive(Drop)]
pub struct Opened<'a> {
    pub page: &'a [u8],
    pub log: Input<'a>,
    pub first: usize,
}

// The byte that stands for one in a message: a question mark for one that could move a terminal's cursor.
fn shown(byte: u8) -> u8 {
    match byte {
        b'\t' => byte,
        0..=31 | 127 => b'?',
        _ => byte,
    }
}

// Writes a text to standard error. Nobody can be told where that fails.
pub fn say_text(rt: &HostRuntime, text: &[u8]) {
    let _ = Print::write_all(&rt.stderr(), text);
}

// Says a file's name, the first 4096 bytes at most.
fn say_name(rt: &HostRuntime, name: &[u8]) {
    let mut line = [0u8; 4096];
    for (to, &byte) in line.iter_mut().zip(name) {
        *to = shown(byte);
    }
    say_text(rt, &line[..name.len().min(4096)]);
}

// Says something of a file.
pub fn say(rt: &HostRuntime, name: &[u8], what: &[u8]) {
    say_name(rt, name);
    say_text(rt, what);
}

// Says the system's text for what went wrong, without the number that the library puts behind it.
fn fail(rt: &HostRuntime, name: &[u8], error: Error) -> Stop
    ensures { result ≡ Failed }
{
    let text = InlineText::<128>::of(error);
    let all = text.as_str();
    let words = match all.split_once(" (os error ") {
        Some((front, _)) => front,
        None => all,
    };
    say(rt, name, b": ");
    say_text(rt, words.as_bytes());
    say_text(rt, b"\n");
    Stop::Failed
}

// How a program ends: with the status that is given, or with 0 where all was done, 1 where something could not be done, 3 where the page is refused.
pub fn end<E: Ending>(ended: E) -> ExitCode
    ensures { exit_status result ≡ E.said ended }
{
    ExitCode::from(ended.status())
}

// Word `i` of the call, in the buffer: an error where there is none, or where it is longer.
pub fn word_at<'a>(rt: &HostRuntime, i: usize, buf: &'a mut [u8]) -> Result<&'a [u8], FillError>
    ensures { IfOk result (λ word. length word.now ≤ length buf.old) }
{
    let n = rt.arg(i, buf)?;
    Ok(&buf[..n])
}

// Argument `i`, in the buffer; where there is none, the usage line is said.
pub fn argument<'a>(
    rt: &HostRuntime,
    i: usize,
    usage: &[u8],
    buf: &'a mut [u8],
) -> Result<&'a [u8], Stop>
    ensures word_in_bounds { IfOk result (λ word. length word.now ≤ length buf.old) }
    ensures err { IsOkUnless result Failed }
{
    word_at(rt, i, buf).map_err(|_| {
        say_text(rt, usage);
        Stop::Failed
    })
}

// Opens a file to be read. It is never descriptor 0, 1 or 2, even where these are closed, so that they stay closed for who writes there.
fn open_above(rt: &HostRuntime, name: &[u8]) -> io::Result<File> {
    let Ok(path) = str::from_utf8(name) else {
        return Err(Error::from_raw_os_error(NO_TEXT));
    };
    let file = File::open(rt, path)?;
    if file.as_raw_fd() > 2 {
        return Ok(file);
    }
    file.try_clone()
}

// Opens a file to be read.
pub fn open<'a>(rt: &'a HostRuntime, name: &'a [u8]) -> Result<Input<'a>, Stop>
    ensures { IsOkUnless result Failed }
{
    let file = open_above(rt, name).map_err(|e| fail(rt, name, e))?;
    Ok(Input { rt, name, file })
}

impl<'a> Input<'a> {
    // Says something of the file.
    pub fn say(&self, what: &[u8]) {
        say(self.rt, self.name, what);
    }

    // One read behind the bytes that are held: how many are held then.
    fn read_on(&mut self, buf: &mut [u8], held: usize) -> Result<usize, Stop>
        requires { held ≤ length buf.old }
        ensures n_in_bounds { IfOk result (λ n. n ≤ length buf.old) }
        ensures held_le_n { IfOk result (λ n. held ≤ n) }
        ensures err { IsOkUnless result Failed }
    {
        let n = self
            .file
            .read(&mut buf[held..])
            .map_err(|e| fail(self.rt, self.name, e))?;
        Ok(held + n)
    }

    // Reads until the file ends, a read fails or the buffer is full: what it read.
    pub fn read_all<'b>(&mut self, buf: &'b mut [u8]) -> Result<&'b [u8], Stop>
        ensures read_in_bounds { IfOk result (λ read. length read.now ≤ length buf.old) }
        ensures err { IsOkUnless result Failed }
    {
        let mut held = 0;
        // Kept (no plainer): what is held grows by what a read gave.
        while held < buf.len() {
            let n = self.read_on(buf, held)?;
            if n == held {
                break;
            }
            held = n;
        }
        Ok(&buf[..held])
    }

    // What waits, where `held` bytes are left of what was read. While lines wait in them (`done` says that none is left) nothing is read. The
    // file has ended only where no line is left, there was room for more, and a read gave nothing.
    pub fn read_more(&mut self, done: bool, buf: &mut [u8], held: usize) -> Result<More, Stop>
        ensures have_in_bounds { IfOk result (λ more. more.have ≤ length buf.old) }
        ensures done_value { IfOk result (λ more. more.ended ≡ true → (done ≡ true) × (more.have ≡ held)) }
        ensures err { IsOkUnless result Failed }
    {
        if done {
            if held < buf.len() {
                let have = self.read_on(buf, held)?;
                return Ok(More {
                    ended: have == held,
                    have,
                });
            }
        } else if held <= buf.len() {
            return Ok(More {
                ended: false,
                have: held,
            });
        }
        self.say(b": no room for a line\n");
        Err(Stop::Failed)
    }
}

// Writes a text to standard output.
pub fn write_text(rt: &HostRuntime, text: &[u8]) -> Result<(), Stop>
    ensures { IsOkUnless result Failed }
{
    Print::write_all(&rt.stdout(), text).map_err(|e| fail(rt, b"standard output", e))
}

// Writes the last text to standard output, and answers how the program ends: as is given, where that went well.
pub fn write_last<E: Ending>(rt: &HostRuntime, text: &[u8], ended: E) -> E
    ensures { result ≢ E.failure → result ≡ ended }
{
    match write_text(rt, text) {
        Ok(()) => ended,
        Err(_) => E::failed(),
    }
}

// Opens a page and a log, and reads the page to its end, as far as its buffer goes, and the first bytes of the log. A program writes nothing
// before that.
pub fn open_both<'a>(
    rt: &'a HostRuntime,
    page_name: &[u8],
    log_name: &'a [u8],
    page: &'a mut [u8],
    buf: &mut [u8],
) -> Result<Opened<'a>, Stop>
    ensures page_in_bounds { IfOk result (λ opened. length opened.page.now ≤ length page.old) }
    ensures first_in_bounds { IfOk result (λ opened. opened.first ≤ length buf.old) }
    ensures err { IsOkUnless result Failed }
{
    let mut page_file = open(rt, page_name)?;
    let mut log = open(rt, log_name)?;
    let page = page_file.read_all(page)?;
    let first = log.read_on(buf, 0)?;
    Ok(Opened { page, log, first })
}
