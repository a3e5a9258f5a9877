// What is kept of the protections beside them, so that a sample which moves none of them asks none: the values at which none moves,
// the word of the raised ones, and the switches that they block.

#![tactic(auto)]

ghost use Rattle.std.specs.Prelude.{◌≡◌, ◌≤◌};
ghost use Rattle.protections.specs.Table.{protections};
ghost use Rattle.guard_watch.specs.Bands.{place_of, inside, inside_at, is_calm, nowhere, is_still, short_of, narrowed, narrowed_at, bands_to};
ghost use Rattle.guard_watch.specs.Watch.{blocked_word, watch_of, Keeps, guarded_by};

use guard::all::step_all;
use guard::rule::{Alarm, Protection};
use guard_raised::{blocks, raised_word};
use laws::with_bit_if;
use protections::{Direction, PROTECTIONS, Quantity, back_of, row_of};
use sample::{Extremes, Sample, measured};
use units::{Level, ProtectionNo};

// The values between two levels, without the levels themselves.
#[derive(Clone, Copy, Debug, PartialEq, Eq)]
pub struct Band {
    pub above: Level,
    pub below: Level,
}

// What is kept: for each quantity, by its place, the values at which no protection moves; bit p for raised p; bit 0 if a raised one
// blocks charge, bit 1 if one blocks discharge.
#[derive(Clone, Copy, Debug, PartialEq, Eq)]
pub struct Watch {
    pub bands: [Band; 5],
    pub raised: u16,
    pub blocked: u16,
}

// The protections, and what is kept of them.
#[derive(Clone, Copy, Debug, PartialEq, Eq)]
pub struct Guarded {
    pub protections: [Protection; PROTECTIONS],
    pub watch: Watch,
}

// ---- a sample at which no protection moves

// The place of a quantity's band.
fn place_of(q: Quantity) -> usize
    ensures value { result ≡ place_of q }
    ensures upper_bound { result ≤ 4 }
{
    match q {
        Quantity::HighestCell => 0,
        Quantity::LowestCell => 1,
        Quantity::Current => 2,
        Quantity::Temperature1 => 3,
        Quantity::Temperature2 => 4,
    }
}

fn is_inside(b: Band, value: Level) -> bool
    ensures { result ≡ inside b value.0 }
{
    b.above < value && value < b.below
}

// The sample's quantity is inside its band.
#[tactic(auto, unfolding(crate::specs::Bands::inside_at))]
fn is_inside_at(bands: [Band; 5], q: Quantity, s: Sample, e: Extremes) -> bool
    ensures { result ≡ inside_at bands e s q }
{
    is_inside(bands[place_of(q)], measured(q, s, e))
}

// Every quantity of the sample is inside its band.
#[tactic(auto, unfolding(crate::specs::Bands::is_calm))]
fn is_calm(bands: [Band; 5], s: Sample, e: Extremes) -> bool
    ensures { result ≡ is_calm bands e s }
{
    is_inside_at(bands, Quantity::HighestCell, s, e)
        && is_inside_at(bands, Quantity::LowestCell, s, e)
        && is_inside_at(bands, Quantity::Current, s, e)
        && is_inside_at(bands, Quantity::Temperature1, s, e)
        && is_inside_at(bands, Quantity::Temperature2, s, e)
}

// ---- the bands of the protections as they stand

fn nowhere() -> Band
    ensures { result ≡ nowhere }
{
    Band {
        above: Level(0),
        below: Level(0),
    }
}

// The values of a band that do not reach a level.
fn short_of(b: Band, d: Direction, level: Level) -> Band
    ensures { result ≡ short_of b d level.0 }
{
    match d {
        Direction::Above if level < b.below => Band { below: level, ..b },
        Direction::Below if b.above < level => Band { above: level, ..b },
        _ => b,
    }
}

// There is no run, and it takes one to move.
fn is_still(run: u8, needed: u8) -> bool
    ensures { result ≡ is_still run needed }
{
    run == 0 && needed != 0
}

// The values of a band at which this protection does not move: with no run those that do not reach its next level, and with a run none.
#[tactic(auto, unfolding(crate::specs::Bands::narrowed))]
fn narrowed(b: Band, d: Direction, p: Protection) -> Band
    ensures { result ≡ narrowed b d p }
{
    match p.alarm {
        Alarm::Clear(run) if is_still(run, p.limits.n) => short_of(b, d, p.limits.trip),
        Alarm::Raised(run) if is_still(run, p.limits.m) => {
            short_of(b, back_of(d), p.limits.release)
        }
        _ => nowhere(),
    }
}

// The bands, with that of protection `no` narrowed by it.
#[tactic(auto, unfolding(crate::specs::Bands::narrowed_at))]
fn narrowed_at(bands: [Band; 5], no: ProtectionNo, p: Protection) -> [Band; 5]
    ensures { result ≡ narrowed_at bands no.0 p }
{
    let row = row_of(no);
    let at = place_of(row.quantity);
    let mut out = bands;
    out[at] = narrowed(bands[at], row.direction, p);
    out
}

// The bands of all protections.
fn bands_of(ps: [Protection; PROTECTIONS]) -> [Band; 5]
    ensures { result ≡ bands_to ps protections }
{
    let mut bands = [Band {
        above: Level(-100000),
        below: Level(100000),
    }; 5];
    for (i, p) in ps.iter().enumerate() {
        // Kept (proof): in two steps. The borrow checker does not cover a call whose result is laid in an array that the call is handed.
        let next = narrowed_at(bands, ProtectionNo(i as u8), *p);
        bands = next;
    }
    bands
}

// ---- what is kept, and the step

// The switches that a raised protection blocks: bit 0 charge, bit 1 discharge.
#[tactic(auto, unfolding(crate::specs::Watch::blocked_word, laws::specs::Words::bits_of))]
fn blocked_word(ps: [Protection; PROTECTIONS]) -> u16
    ensures { result ≡ blocked_word ps }
{
    let charge = with_bit_if(0, 0, blocks(ps, 0));
    with_bit_if(charge, 1, blocks(ps, 1))
}

// What is kept of the protections.
#[tactic(auto, unfolding(crate::specs::Watch::watch_of))]
pub fn watch_of(ps: [Protection; PROTECTIONS]) -> Watch
    ensures { result ≡ watch_of ps }
{
    Watch {
        bands: bands_of(ps),
        raised: raised_word(ps),
        blocked: blocked_word(ps),
    }
}

// Every protection, one sample on, and what is then kept of them. Most samples move none: then both stay.
#[tactic(auto, unfolding(crate::specs::Watch::guarded_by))]
pub fn step(ps: [Protection; PROTECTIONS], w: Watch, s: Sample, e: Extremes) -> Guarded
    requires { Keeps ps w }
    ensures { result ≡ guarded_by e s ps }
{
    if is_calm(w.bands, s, e) {
        return Guarded {
            protections: ps,
            watch: w,
        };
    }
    let stepped = step_all(ps, s, e);
    Guarded {
        protections: stepped,
        watch: watch_of(stepped),
    }
}
