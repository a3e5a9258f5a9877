// The protections of document 01, "The eight protections": when a protection is raised and when it is released.
// `rule` is the run rule, once for any limits, direction and quantity: the alarm with its run, and one protection one sample on.
// `all` is the array of them: as a load leaves it, and one sample on, each by its row of the table.
// Definitions stand in specs/: Runs has the run rule from the history and by counting, Steps one protection and all of them.

#![tactic(auto)]

pub mod all;
pub mod rule;
