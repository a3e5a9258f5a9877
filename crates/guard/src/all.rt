// All protections together: as a load leaves them, and one sample on.
ghost use Rattle.std.specs.Prelude.{◌≡◌, [], ◌≤◌};
ghost use Rattle.protections.specs.Table.{protections};
ghost use Rattle.guard.specs.Steps.{clear, step_at, step_some, step_all, protections_after};

use crate::rule::{Alarm, Protection, step_one};
use protections::{Limits, PROTECTIONS, row_of};
use sample::{Extremes, Sample, measured};
use units::ProtectionNo;

// Protection `no`, one sample on, by its row of the table.
#[tactic(auto, unfolding(crate::specs::Steps::step_at))]
fn step_at(no: ProtectionNo, s: Sample, e: Extremes, p: Protection) -> Protection
    ensures { result ≡ step_at e s no.0 p }
{
    let row = row_of(no);
    step_one(row.direction, measured(row.quantity, s, e), p)
}

// Protections `from` up to `to`, one sample on.
// Kept (rule): the records are an array by value, stepped entry by entry.
fn step_some(
    ps: [Protection; PROTECTIONS],
    s: Sample,
    e: Extremes,
    from: usize,
    to: usize,
) -> [Protection; PROTECTIONS]
    requires { (from ≤ to) × (to ≤ protections) }
    ensures { result ≡ step_some e s from to ps }
{
    let mut out = ps;
    for i in from..to {
        let p = out[i];
        out[i] = step_at(ProtectionNo(i as u8), s, e, p);
    }
    out
}

// Every protection, one sample on; e are the highest and the lowest cell of the sample.
// Kept (speed): in two halves. The compiler looks up the rows of five protections beforehand, and of ten at each sample.
pub fn step_all(ps: [Protection; PROTECTIONS], s: Sample, e: Extremes) -> [Protection; PROTECTIONS]
    ensures { result ≡ step_all e s ps }
{
    let half = step_some(ps, s, e, 0, 5);
    step_some(half, s, e, 5, PROTECTIONS)
}

// A protection at the load: clear, with no run.
#[tactic(auto, unfolding(crate::specs::Steps::clear))]
fn cleared(limits: Limits) -> Protection
    ensures { result ≡ clear limits }
{
    Protection {
        limits,
        alarm: Alarm::Clear(0),
    }
}

// Every protection at the load.
pub fn fresh(ls: [Limits; PROTECTIONS]) -> [Protection; PROTECTIONS]
    ensures { result ≡ protections_after ls [] }
{
    ls.map(cleared)
}
