// What the bench rig's host program, written in C, calls. tests/rig/keeper.h has the prototypes.
// Kept (C): the functions' names, parameters and answers, which are numbers, are those of that header.

#![tactic(auto)]

ghost use Rattle.std.specs.Prelude.{◌≡◌, length};
ghost use Rattle.crc.specs.CheckByte.{check_byte};
ghost use Rattle.page_judge.specs.Page.{judged};
ghost use Rattle.page_pocket.specs.Pocket.{pocket_judged};
ghost use Rattle.pack_numbers.specs.Calls.{loaded_numbers, offered_numbers, commanded_numbers, replied_number, replied_buffer, shown_numbers};
ghost use Rattle.sheet_write.specs.Sheet.{wrote_for, sheet_in};
ghost use Rattle.sheet_read.specs.Reading.{read_verdict, page_in};
ghost use Rattle.rig.specs.Answer.{numbered, wrote_number};

use crc::check_byte;
use pack_numbers::{Call, Numbers, Shown};
use page_judge::judge;
use refusals::{Refusal, Verdict};
use sample::Sample;
use sheet_read::read_sheet;
use sheet_write::write_sheet;

// uint32_t keeper_check_byte(const uint8_t *bytes, size_t length): the check byte of the bytes.
#[unsafe(no_mangle)]
pub extern "C" fn keeper_check_byte(bytes: &[u8]) -> u32
    ensures { result ≡ check_byte bytes.now }
{
    u32::from(check_byte(bytes))
}

// The one number that C is answered for a verdict.
// Kept (C): pack_numbers has the same for its own calls, where the pack stands beside the number; each is what its header says.
fn number_of(verdict: Verdict) -> u32
    ensures { result ≡ numbered verdict }
{
    match verdict {
        Ok(()) => 0,
        Err(Refusal { number, word }) => u32::from(number) * 256 + u32::from(word),
    }
}

// uint32_t keeper_judge_page(const uint8_t *page, size_t length): 0 for an accepted page, else refusal number × 256 + word. A page of 160
// bytes has words up to 79.
#[unsafe(no_mangle)]
pub extern "C" fn keeper_judge_page(page: &[u8]) -> u32
    ensures { result ≡ numbered (judged page.now) }
{
    number_of(judge(page))
}

// uint32_t keeper_judge_pocket(const uint8_t *page, size_t length): the same by the pocket profile, whose refusal is 21.
#[unsafe(no_mangle)]
pub extern "C" fn keeper_judge_pocket(page: &[u8]) -> u32
    ensures { result ≡ numbered (pocket_judged page.now) }
{
    number_of(page_pocket::judge(page))
}

// ---- a pack: keeper.h has struct keeper_pack and struct keeper_sample as these two lie in memory

// struct keeper_call keeper_pack_load(const uint8_t *page, size_t length): the page's answer, and the pack behind the load.
#[unsafe(no_mangle)]
pub extern "C" fn keeper_pack_load(page: &[u8]) -> Call
    ensures { result ≡ loaded_numbers page.now }
{
    pack_numbers::load(page)
}

// uint32_t keeper_pack_offer(struct keeper_pack *pack, struct keeper_sample sample): the pack that was lent is changed in place.
#[unsafe(no_mangle)]
pub extern "C" fn keeper_pack_offer(pack: &mut Numbers, sample: Sample) -> u32
    ensures { (result ≡ (offered_numbers pack.old sample).answer) × (pack.new ≡ (offered_numbers pack.old sample).pack) }
{
    let call = pack_numbers::offer(*pack, sample);
    *pack = call.pack;
    call.answer
}

// struct keeper_call keeper_pack_command(struct keeper_pack pack, uint16_t command): the pack behind the command is in the answer.
#[unsafe(no_mangle)]
pub extern "C" fn keeper_pack_command(pack: Numbers, command: u16) -> Call
    ensures { result ≡ commanded_numbers pack command }
{
    pack_numbers::command(pack, command)
}

// struct keeper_shown keeper_pack_show(struct keeper_pack pack): the five fields of a line of the replay.
#[unsafe(no_mangle)]
pub extern "C" fn keeper_pack_show(pack: Numbers) -> Shown
    ensures { result ≡ shown_numbers pack }
{
    pack_numbers::show(pack)
}

// uint32_t keeper_pack_reply(struct keeper_pack pack, uint8_t command, uint8_t *reply, size_t length): three bytes, where length is 3.
#[unsafe(no_mangle)]
pub extern "C" fn keeper_pack_reply(pack: Numbers, command: u8, reply: &mut [u8]) -> u32
    ensures value { result ≡ replied_number pack command (length reply.old) }
    ensures reply_after { reply.new ≡ replied_buffer pack command reply.old }
{
    pack_numbers::reply(pack, command, reply)
}

// uint64_t keeper_write_sheet(const uint8_t *page, size_t length, uint8_t *text, size_t room): the bytes of the sheet, which stands at the
// front of the text, or refusal number × 65536 + word; then the text is as it was.
#[unsafe(no_mangle)]
pub extern "C" fn keeper_write_sheet(page: &[u8], text: &mut [u8]) -> u64
    ensures value { result ≡ wrote_number (wrote_for page.now (length text.old)) }
    ensures text_after { text.new ≡ sheet_in page.now text.old }
{
    match write_sheet(page, text) {
        Ok(length) => length as u64,
        Err(Refusal { number, word }) => u64::from(number) * 65536 + u64::from(word),
    }
}

// uint32_t keeper_read_sheet(const uint8_t *text, size_t length, uint8_t *page, size_t size): 0 for an accepted sheet, whose page the buffer
// then holds, else refusal number × 256 + line or word; then the buffer is as it was.
#[unsafe(no_mangle)]
pub extern "C" fn keeper_read_sheet(text: &[u8], page: &mut [u8]) -> u32
    ensures value { result ≡ numbered (read_verdict text.now (length page.old)) }
    ensures page_after { page.new ≡ page_in text.now page.old }
{
    number_of(read_sheet(text, page))
}
