// The reply to a command: its answer, and its three bytes in a lent buffer.
ghost use Rattle.std.specs.Prelude.{◌≡◌, length};
ghost use Rattle.bus_words.specs.Words.{Bounded};
ghost use Rattle.refusals.specs.Refusals.{given};
ghost use Rattle.bus.specs.Replies.{answer_of_reply, refusals_of, bytes_of, answer_to, buffer_of, word_refusals, word_answer, word_buffer};

use crate::answer::{Framed, Replied, answer_to, frame};
use bus_table::row_of_command;
use bus_words::sent_word;
use pack_state::Pack;

// Puts the three bytes into a buffer of three.
fn put(f: Framed, out: &mut [u8])
    requires { length out.old ≡ 3 }
    ensures { out.new ≡ bytes_of f }
{
    out.copy_from_slice(&[f.low, f.high, f.check]);
}

// Answers with a word of the caller's own: refused with 14 and the buffer as it was, or its three bytes. A gauge above the keeper sends by it.
pub fn put_word(command: u8, word: u16, out: &mut [u8]) -> Replied
    ensures value { (result ≡ word_answer (length out.old)) × (answer_of_reply result ≡ given (word_refusals (length out.old))) }
    ensures out_after { out.new ≡ word_buffer command word out.old }
{
    if out.len() != 3 {
        return Err(14);
    }
    put(frame(command, word), out);
    Ok(())
}

// Answers a command into the lent buffer: refused with 12 to 15 and the buffer as it was, or its three bytes.
pub fn reply(p: Pack, command: u8, out: &mut [u8]) -> Replied
    requires { Bounded p }
    ensures value { (result ≡ answer_to p command (length out.old)) × (answer_of_reply result ≡ given (refusals_of p command (length out.old))) }
    ensures out_after { out.new ≡ buffer_of p command out.old }
{
    answer_to(p, command, out.len())?;
    let word = sent_word(p, row_of_command(command));
    put(frame(command, word), out);
    Ok(())
}
