// words PAGE LOG: passes over the log and then writes what the pack answers on the bus, one line for each command from 00 to ff: the reply's
// three bytes in hexadecimal, or `refused` and the number. A refused page gives its one line. What it cannot do it says on standard
// error; until the log is read to its end it writes nothing else.

#![tactic(auto)]

use files::Stop;
use std::process::ExitCode;

const USAGE: &[u8] = b"usage: words PAGE LOG\n";

fn run(rt: &HostRuntime) -> Result<(), Stop> {
    let mut page_name = [0u8; 4096];
    let page_name = files::argument(rt, 1, USAGE, &mut page_name)?;
    let mut log_name = [0u8; 4096];
    let log_name = files::argument(rt, 2, USAGE, &mut log_name)?;
    let mut page = [0u8; 4096];
    let mut buf = [0u8; 65536];
    let mut out = [0u8; 4096];
    let pack = log_files::pack_behind(rt, page_name, log_name, &mut page, &mut buf, &mut out)?;
    let n = bus_lines::put_words(pack, &mut out);
    files::write_last(rt, &out[..n], Ok(()))
}

fn main(rt: HostRuntime) -> ExitCode {
    files::end(run(&rt))
}
