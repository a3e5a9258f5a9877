// A chunk of log answered line by line, and what has to wait for the next read.
ghost use Rattle.pack_log.specs.Replay.{AnswerChunk, Feed};

use crate::next::next_entry;
use log_texts::ROOM;
use pack::Keeper;

// How far a chunk of log was answered: whether no newline is left, the bytes used and written, and the pack behind them.
// Kept (no plainer): `done` is no Option, since what was used and written and the pack are there in both cases.
#[derive(Clone, Copy)]
pub struct Chunk {
    pub done: bool,
    pub used: usize,
    pub written: usize,
    pub pack: Keeper,
}

// The same, with the number of bytes that wait at the front of the buffer.
#[derive(Clone, Copy)]
pub struct Fed {
    pub done: bool,
    pub used: usize,
    pub held: usize,
    pub written: usize,
    pub pack: Keeper,
}

// Answers the lines that end in `bytes`, one behind the other, as long as the longest answer has room.
pub fn answer_chunk(p: Keeper, bytes: &[u8], out: &mut [u8]) -> Chunk
    ensures { AnswerChunk bytes.now out.old p result.done result.used result.written result.pack out.new }
{
    let mut k = p;
    let mut at: usize = 0;
    let mut w: usize = 0;
    while let Some(n) = next_entry(bytes, at) {
        if out.len() < w + ROOM {
            return Chunk {
                done: false,
                used: at,
                written: w,
                pack: k,
            };
        }
        let t = log_answers::tell_entry(k, n.entry);
        w = log_texts::put_told(out, w, t.told);
        k = t.pack;
        at = n.next;
    }
    Chunk {
        done: true,
        used: at,
        written: w,
        pack: k,
    }
}

// Answers the bytes of a buffer as a chunk, and moves what has to wait for the next read to its front.
pub fn feed(p: Keeper, buf: &mut [u8], out: &mut [u8]) -> Fed
    ensures { Feed buf.old out.old p result buf.new out.new }
{
    let Chunk {
        done,
        used,
        written,
        pack,
    } = answer_chunk(p, buf, out);
    let held = log_lines::carried(done, buf.len() - used);
    log_lines::move_down(buf, used, held);
    Fed {
        done,
        used,
        held,
        written,
        pack,
    }
}
