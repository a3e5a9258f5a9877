// What a line of the log does to a pack, as a value: its answer, before it is text, and the pack behind it.

#![tactic(auto)]

ghost use Rattle.std.specs.Prelude.{◌≡◌};
ghost use Rattle.refusals.specs.Answers.{answer_of};
ghost use Rattle.refusals.specs.Refusals.{given};
ghost use Rattle.log_answers.specs.Tell.{answered_as, line_refusals, outcome_of, tell, tell_entry};

use log_entries::{Entry, Kind};
use pack::{Answered, Keeper};
use pack_shown::Decision;
use refusals::refused;

// What a line is answered with, before it is text: the five fields of the pack's decision, or the number of the refusal.
// Kept (promise): the error is the number and no `Refusal` with a word: no line's answer names a word, and log_compare's `told-one` says that the
// text of an answer determines the answer.
pub type Told = Result<Decision, u8>;

// What a line does: of which kind it is, what it is answered with, and the pack behind it.
#[derive(Clone, Copy)]
pub struct Outcome {
    pub kind: Kind,
    pub told: Told,
    pub pack: Keeper,
}

fn outcome_of(kind: Kind, a: Answered) -> Outcome
    ensures { result ≡ outcome_of kind a }
{
    let Answered { verdict, pack } = a;
    let told = match verdict {
        Ok(()) => Ok(pack_shown::decide(pack.pack)),
        Err(refusal) => Err(refusal.number),
    };
    Outcome { kind, told, pack }
}

// What a pack answers to a line that was read: a sample is offered, a command is given, and a malformed line is refused with 17 and moves
// nothing. A pass over a log, which shows no decision, needs no more.
pub fn answered_by(k: Keeper, e: Entry) -> Answered
    ensures value { result ≡ answered_as k e }
    ensures verdict_value { answer_of result.verdict ≡ given (line_refusals k e) }
{
    match e {
        Entry::Offer(sample) => pack::offer(k, sample),
        Entry::Command(command) => pack::command(k, command),
        Entry::Malformed => Answered {
            verdict: refused(17),
            pack: k,
        },
    }
}

// What a line that was read does to a pack.
pub fn tell_entry(k: Keeper, e: Entry) -> Outcome
    ensures { result ≡ tell_entry k e }
{
    outcome_of(e.kind(), answered_by(k, e))
}

// What a line does to a pack.
pub fn tell(k: Keeper, line: &[u8]) -> Outcome
    ensures { result ≡ tell k line.now }
{
    tell_entry(k, log_entries::read_entry(line))
}
