// What never happens with an accepted page (request 08): proofs/Never.antt. No code stands here.

#![tactic(auto)]
