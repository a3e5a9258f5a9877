// Where a log starts and where it ends.
ghost use Rattle.std.specs.Prelude.{◌≡◌, ◌≤◌, length};
ghost use Rattle.refusals.specs.Answers.{answer_of};
ghost use Rattle.refusals.specs.Refusals.{given};
ghost use Rattle.page_judge.specs.Page.{refusals};
ghost use Rattle.text_writing.specs.Placing.{Put};
ghost use Rattle.pack.specs.Kept.{after_load};
ghost use Rattle.log_lines.specs.Run.{closing};
ghost use Rattle.log_texts.specs.Room.{Opened};

use pack::{Answered, Keeper};
use refusals::Verdict;
use text_writing::Writer;

// Where a log starts: what the page judge says, the bytes written, and the pack.
// Kept (promise): no Result, since `begin` writes, and hands a pack back, for a refused page too.
#[derive(Clone, Copy)]
pub struct Begun {
    pub verdict: Verdict,
    pub written: usize,
    pub pack: Keeper,
}

// The end of the log: the last line, where it does not end, gets its newline behind the `held` bytes that are left, so that it can be
// answered like any other; where nothing is left there is no line. It answers how many bytes then wait.
pub fn put_closing(buf: &mut [u8], held: usize) -> usize
    ensures put { Put buf.old held (closing held) result buf.new }
    ensures upper_bound { held ≤ length buf.old → result ≤ length buf.old }
{
    if held == 0 {
        return 0;
    }
    let mut w = Writer::new(buf, held);
    w.put_byte(b'\n');
    w.at
}

// Loads a page, and writes the header, or for a refused page its one line.
pub fn begin(page: &[u8], out: &mut [u8]) -> Begun
    ensures verdict_value { (result.verdict ≡ (after_load page.now).verdict) × (result.pack ≡ (after_load page.now).pack) }
    ensures verdict_value_2 { answer_of result.verdict ≡ given (refusals page.now) }
    ensures opened { Opened out.old result.verdict result.written out.new }
{
    let Answered { verdict, pack } = pack::load(page);
    let written = log_texts::put_opening(out, verdict);
    Begun {
        verdict,
        written,
        pack,
    }
}
