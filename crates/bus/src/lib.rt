// Words on the bus: whether a command is answered, the three bytes of its word, and the reply in a lent buffer.

#![tactic(auto)]

// Refusals 12 to 15, and the bytes of a word.
pub mod answer;

// The reply: the answer, and its three bytes in the caller's buffer.
pub mod reply;
