// Refusals: the answer that a page, a sample and a switch command get, and the tables that document 01 gives it by.

#![tactic(auto)]

ghost use Rattle.std.specs.Prelude.{◌≡◌, Err};

// Document 01's number of a refusal, and the word at fault; what is no page names word 0.
// Kept (no plainer): a number and no enum of some twenty refusals, each name of which would only be mapped to its number again: the number is what
// the table's rows (`given`, `answer_of`), the texts, C and the bus say.
#[derive(Clone, Copy, Debug, PartialEq, Eq)]
pub struct Refusal {
    pub number: u8,
    pub word: u8,
}

// Accepted, or refused.
pub type Verdict = Result<(), Refusal>;

// A refusal that names word 0.
pub fn refused(number: u8) -> Verdict
    ensures { result ≡ Err (record { number = number; word = 0 }) }
{
    Err(Refusal { number, word: 0 })
}
