// The run rule of document 01: what raises a protection and what releases it.
ghost use Rattle.std.specs.Prelude.{◌≡◌};
ghost use Rattle.protections.specs.Direction.{reaches};
ghost use Rattle.guard.specs.Runs.{run_on};
ghost use Rattle.guard.specs.Steps.{step_one};

use laws::next_run;
use protections::{Direction, Limits, back_of};
use units::Level;

// Clear, with its run of tripping samples; or raised, with its run of releasing samples.
// Kept (rule): the enum of the two states, each with its run.
#[derive(Clone, Copy, Debug, PartialEq, Eq)]
pub enum Alarm {
    Clear(u8),
    Raised(u8),
}

// One protection: what the page says of it, and whether it is raised.
#[derive(Clone, Copy, Debug, PartialEq, Eq)]
pub struct Protection {
    pub limits: Limits,
    pub alarm: Alarm,
}

fn has_reached(d: Direction, level: Level, value: Level) -> bool
    ensures { result ≡ reaches d level.0 value.0 }
{
    match d {
        Direction::Above => level <= value,
        Direction::Below => value <= level,
    }
}

// A run, one sample on: one longer if the sample counts, else none; None where `needed` are reached, and the protection moves.
#[tactic(auto, unfolding(laws::specs::Latest::next_run))]
fn run_on(needed: u8, counts: bool, old: u8) -> Option<u8>
    ensures { result ≡ run_on needed counts old }
{
    // Most samples do not count, and are answered first: the run ends. No accepted page has an N or M of 0, for which a run of none would do.
    if !counts {
        return if needed == 0 { None } else { Some(0) };
    }
    let run = next_run(true, old);
    if needed <= run { None } else { Some(run) }
}

// One protection, one sample on: `value` is what it looks at in the sample. While clear it asks the trip level alone, while raised the
// release level alone: with an accepted page no sample reaches both (`never-trips-and-releases`, crate never).
#[tactic(auto, unfolding(crate::specs::Steps::step_one))]
pub fn step_one(d: Direction, value: Level, p: Protection) -> Protection
    ensures { result ≡ step_one d value.0 p }
{
    let limits = p.limits;
    let alarm = match p.alarm {
        Alarm::Clear(old) => {
            let trips = has_reached(d, limits.trip, value);
            match run_on(limits.n, trips, old) {
                Some(run) => Alarm::Clear(run),
                None => Alarm::Raised(0),
            }
        }
        Alarm::Raised(old) => {
            let qualifies = has_reached(back_of(d), limits.release, value);
            match run_on(limits.m, qualifies, old) {
                Some(run) => Alarm::Raised(run),
                None => Alarm::Clear(0),
            }
        }
    };
    Protection { limits, alarm }
}
