// What long waiting gives (request 14): proofs/Rounds.antt. No code stands here.

#![tactic(auto)]
