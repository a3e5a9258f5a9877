#![tactic(auto)]

pub mod chunk;
pub mod ends;
pub mod next;
pub mod pass;
