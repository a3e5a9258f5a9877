// Whether a command is answered: refusals 12 to 15; and the three bytes of a word.
ghost use Rattle.std.specs.Prelude.{◌≡◌};
ghost use Rattle.refusals.specs.Refusals.{given};
ghost use Rattle.bus.specs.Replies.{answer_of_reply, cell_above, frame_of, refusals_of, answer_to};

use bus_table::{Sends, row_of_command};
use crc::check_byte;
use pack_state::Pack;

// The three bytes of a reply.
#[derive(Clone, Copy, Debug, PartialEq, Eq)]
pub struct Framed {
    pub low: u8,
    pub high: u8,
    pub check: u8,
}

// The answer to a command: three bytes stand in the buffer, or it is refused with a number.
// Kept (promise): the number and no `Refusal` with a word: `verdict-one` says that the number alone determines the answer.
pub type Replied = Result<(), u8>;

// The three bytes of a word that answer a command.
#[tactic(auto, unfolding(crate::specs::Replies::frame_of))]
pub fn frame(command: u8, word: u16) -> Framed
    ensures { result ≡ frame_of command word }
{
    let [low, high] = word.to_le_bytes();
    let sent = [0x16, command, 0x17, low, high];
    let check = check_byte(&sent);
    Framed { low, high, check }
}

// 13: it is a cell command for a cell above n.
#[tactic(auto, unfolding(crate::specs::Replies::cell_above))]
fn cell_above(n: u8, row: Sends) -> bool
    ensures { result ≡ cell_above n (Some row) }
{
    matches!(row, Sends::Cell(k) if n < k.0)
}

// Whether a command is answered into a buffer of `room` bytes, or refused with the lowest of 12 to 15 that applies. In a pack without a page
// n is 0 and there is no sample: each cell command is 13, and of the others 0x41 alone is answered, with mode 0.
pub fn answer_to(p: Pack, command: u8, room: usize) -> Replied
    ensures { (result ≡ answer_to p command room) × (answer_of_reply result ≡ given (refusals_of p command room)) }
{
    let Some(row) = row_of_command(command) else {
        return Err(12);
    };
    if cell_above(p.rules.n, row) {
        return Err(13);
    }
    if room != 3 {
        return Err(14);
    }
    if p.sampled || command == 0x41 {
        Ok(())
    } else {
        Err(15)
    }
}
