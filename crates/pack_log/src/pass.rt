// A pass over a log that writes no text: the pack behind it, wherever the reads cut it.
ghost use Rattle.pack_log.specs.Replay.{PassChunk, Pass};

use crate::next::next_entry;
use pack::Keeper;

// How far a pass over a chunk of log came: the bytes used, and the pack behind them.
#[derive(Clone, Copy)]
pub struct Gone {
    pub used: usize,
    pub pack: Keeper,
}

// The same, with the number of bytes that wait at the front of the buffer.
#[derive(Clone, Copy)]
pub struct Rest {
    pub used: usize,
    pub held: usize,
    pub pack: Keeper,
}

// Passes over the lines that end in `bytes`.
pub fn pass_chunk(p: Keeper, bytes: &[u8]) -> Gone
    ensures { PassChunk bytes.now p result }
{
    let mut k = p;
    let mut at: usize = 0;
    while let Some(n) = next_entry(bytes, at) {
        k = log_answers::answered_by(k, n.entry).pack;
        at = n.next;
    }
    Gone { used: at, pack: k }
}

// Passes over the bytes of a buffer, and moves what has to wait for the next read to its front.
pub fn pass(p: Keeper, buf: &mut [u8]) -> Rest
    ensures { Pass buf.old p result buf.new }
{
    let Gone { used, pack } = pass_chunk(p, buf);
    let held = log_lines::carried(true, buf.len() - used);
    log_lines::move_down(buf, used, held);
    Rest { used, held, pack }
}
