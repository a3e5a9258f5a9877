// replay PAGE LOG: writes what a settings page and a log give to standard output, the header and one line per log line, or the
// one line of a refused page. What it cannot do it says on standard error; until a page and the first part of the log are read it
// writes nothing else.

#![tactic(auto)]

ghost use Rattle.std.specs.Prelude.{◌≡◌, true, ◌≤◌, length, IfOk};

use files::{Input, Opened, Stop};
use pack::Keeper;
use pack_log::chunk::Fed;
use std::process::ExitCode;

const USAGE: &[u8] = b"usage: replay PAGE LOG\n";

// Where the answers came: whether the log has ended, and what the last part left.
#[derive(Clone, Copy)]
struct Round {
    // Kept (promise): `answer_lines` says that it answers only where the log has ended.
    ended: bool,
    last: Fed,
}

// Answers the first `have` bytes of the buffer, and writes the answers.
fn answer_part(
    rt: &HostRuntime,
    k: Keeper,
    buf: &mut [u8],
    have: usize,
    out: &mut [u8],
) -> Result<Fed, Stop>
    requires { have ≤ length buf.old }
    ensures held_in_bounds { IfOk result (λ r. r.held ≤ length buf.old) }
    ensures held_bound { IfOk result (λ r. r.done ≡ true → r.held ≤ 129) }
{
    let r = pack_log::chunk::feed(k, &mut buf[..have], out);
    files::write_text(rt, &out[..r.written])?;
    Ok(r)
}

// Answers the log, of which the first `first` bytes are read, up to its last line: where it answers, the log has ended, no line is left, and
// what waits has room for its newline. What it could not do it has said.
// Kept (no plainer): no `Passing` of log_files, since a part's answers are written, which can fail, and may leave lines for the next turn.
// Kept (proof): the log, its buffer and what waits there are no struct: the borrow checker does not cover a part of a buffer that is lent past a
// ghost field, which is where the bound of what waits would stand.
fn answer_lines(
    rt: &HostRuntime,
    log: &mut Input,
    k: Keeper,
    buf: &mut [u8],
    first: usize,
    out: &mut [u8],
) -> Result<Round, Stop>
    requires { first ≤ length buf.old }
    ensures held_in_bounds { IfOk result (λ r. r.last.held ≤ length buf.old) }
    ensures ended_value { IfOk result (λ r. (r.ended ≡ true) × (r.last.done ≡ true) × (r.last.held ≤ 129)) }
{
    let mut pack = k;
    let mut have = first;
    for _ in 0..files::TURNS {
        let r = answer_part(rt, pack, buf, have, out)?;
        pack = r.pack;
        let more = log.read_more(r.done, buf, r.held)?;
        if more.ended {
            return Ok(Round {
                ended: more.ended,
                last: r,
            });
        }
        have = more.have;
    }
    log.say(b": too long\n");
    Err(Stop::Failed)
}

// Answers the whole log, of which the first `first` bytes are read.
fn answer(
    rt: &HostRuntime,
    log: &mut Input,
    k: Keeper,
    buf: &mut [u8],
    first: usize,
    out: &mut [u8],
) -> Result<(), Stop>
    requires { first ≤ length buf.old }
{
    let Round { last, .. } = answer_lines(rt, log, k, buf, first, out)?;
    let n = pack_log::ends::put_closing(buf, last.held);
    answer_part(rt, last.pack, buf, n, out)?;
    Ok(())
}

fn run(rt: &HostRuntime) -> Result<(), Stop> {
    let mut page_name = [0u8; 4096];
    let page_name = files::argument(rt, 1, USAGE, &mut page_name)?;
    let mut log_name = [0u8; 4096];
    let log_name = files::argument(rt, 2, USAGE, &mut log_name)?;
    let mut page = [0u8; 4096];
    let mut buf = [0u8; 65536];
    let Opened {
        page,
        mut log,
        first,
    } = files::open_both(rt, page_name, log_name, &mut page, &mut buf)?;
    let mut out = [0u8; 65536];
    let begun = pack_log::ends::begin(page, &mut out);
    files::write_text(rt, &out[..begun.written])?;
    match begun.verdict {
        Ok(()) => answer(rt, &mut log, begun.pack, &mut buf, first, &mut out),
        Err(_) => Err(Stop::Refused),
    }
}

fn main(rt: HostRuntime) -> ExitCode {
    files::end(run(&rt))
}
