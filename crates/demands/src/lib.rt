// The three demands, sentence by sentence: proofs/Demands.antt. No code stands here.

#![tactic(auto)]
