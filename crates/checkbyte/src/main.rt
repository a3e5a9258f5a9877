// checkbyte FILE: writes the check byte of the file's bytes, as two hexadecimal digits and a newline. The file may have any length.
// What it cannot do it says on standard error, and then writes nothing else.

#![tactic(auto)]

ghost use Rattle.std.specs.Prelude.{◌≡◌, true, take, IfOk};
ghost use Rattle.crc.specs.CheckByte.{remainder};

use files::{Input, Stop};
use std::fmt::InlineText;
use std::process::ExitCode;

// What a read left: whether the file has ended, how many bytes it gave, and the check byte of all bytes so far.
#[derive(Clone, Copy)]
struct Taken {
    // Kept (promise): `take_all` says that it answers only where the file has ended, and `take_part` that nothing came there.
    ended: bool,
    have: usize,
    check: u8,
}

// One read more, and the check byte of the bytes before it goes on over what it gave.
fn take_part(file: &mut Input, check: u8, buf: &mut [u8]) -> Result<Taken, Stop>
    ensures check_value { IfOk result (λ taken. taken.check ≡ remainder check (take taken.have buf.new)) }
    ensures have_value { IfOk result (λ taken. taken.ended ≡ true → taken.have ≡ 0) }
{
    let more = file.read_more(true, buf, 0)?;
    let part = &buf[..more.have];
    Ok(Taken {
        ended: more.ended,
        have: more.have,
        check: crc::go_on(check, part),
    })
}

// Takes the file part by part: where it answers, the file has ended. What it could not do it has said.
fn take_all(file: &mut Input, buf: &mut [u8]) -> Result<Taken, Stop>
    ensures { IfOk result (λ taken. taken.ended ≡ true) }
{
    let mut check = 0;
    for _ in 0..files::TURNS {
        let taken = take_part(file, check, buf)?;
        if taken.ended {
            return Ok(taken);
        }
        check = taken.check;
    }
    file.say(b": too long\n");
    Err(Stop::Failed)
}

fn run(rt: &HostRuntime) -> Result<(), Stop> {
    let mut name = [0u8; 4096];
    let path = files::argument(rt, 1, b"usage: checkbyte FILE\n", &mut name)?;
    let mut file = files::open(rt, path)?;
    let mut buf = [0u8; 65536];
    let Taken { check, .. } = take_all(&mut file, &mut buf)?;
    let line = InlineText::<4>::of(format_args!("{check:02x}\n"));
    files::write_last(rt, line.as_str().as_bytes(), Ok(()))
}

fn main(rt: HostRuntime) -> ExitCode {
    files::end(run(&rt))
}
