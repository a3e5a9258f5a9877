// Which cells are bled at a sample (document 01, "Bleeding"), given which cells want it.
// `resting` is what is kept from one sample to the next: the cell after a cell, the runs of bled samples, and who rests by them.
// `chooser` is the walk over the cells from the start cell on: who is taken.
// Definitions stand in specs/: Walk/Walk has the walk of one sample and Walk/History who is bled at each sample of a history, both as
// document 01 says it; Resting/Steps and Walk/Steps have what the code works out, and Walk/Balance shows that the two agree.

#![tactic(auto)]

pub mod chooser;
pub mod resting;
