// The state of a pack: what it holds, and one accepted sample on.

#![tactic(auto)]

ghost use Rattle.std.specs.Prelude.{◌≡◌};
ghost use Rattle.pack_state.specs.State.{next_tick, want_at, next_balance, accepted_by, Watched};

use bleed::chooser::choose;
use bleed::resting::{next_cell, next_runs, resting_word};
use bleed_wants::{is_charging, wanting_word};
use guard::rule::Protection;
use guard_watch::{Guarded, Watch};
use page_settings::Rules;
use protections::PROTECTIONS;
use sample::{Extremes, Sample};
use units::CellNo;

// What bleeding keeps: of the latest accepted sample its start cell, who rested and who was bled; for the next one the start
// cell, and at how many samples in a row up to now each cell was bled. Bit k - 1 of a word stands for cell k. No word and no line shows
// `begun` and `rested`; `begun-is` and `rested-is` (specs/Steps) say what they are.
#[repr(C)]
#[derive(Clone, Copy, Debug, PartialEq, Eq)]
pub struct Balance {
    pub begun: CellNo,
    pub rested: u16,
    pub bled: u16,
    pub start: CellNo,
    pub runs: [u8; 10],
}

// The state of a pack: what the page says (its limits stand in the protections), and what was kept since; `watch` is what the protections
// come to. It does not grow with the history. Without a page n is 0, and every sample is refused.
#[derive(Clone, Copy, Debug, PartialEq, Eq)]
pub struct Pack {
    pub rules: Rules,
    pub protections: [Protection; PROTECTIONS],
    pub watch: Watch,
    pub balance: Balance,
    pub latest: Sample,
    pub sampled: bool,
    pub command: u8,
    pub tick: u32,
}

// ---- an accepted sample

#[tactic(auto, unfolding(crate::specs::State::next_tick))]
fn next_tick(t: u32) -> u32
    ensures { result ≡ next_tick t }
{
    if t < 999999 {
        return t + 1;
    }
    0
}

// The cells that want bleeding at a sample whose highest and lowest cell are e, by whether a protection is raised after it.
#[tactic(auto, unfolding(crate::specs::State::want_at))]
pub fn want_at(r: Rules, s: Sample, e: Extremes, raised: bool) -> u16
    ensures { result ≡ want_at r s e raised }
{
    wanting_word(
        r.n,
        is_charging(r.detection, s.current),
        raised,
        r.floor,
        r.difference,
        e.lowest.volts,
        s.cells,
    )
}

// Bleeding at one sample.
#[tactic(auto, unfolding(crate::specs::State::next_balance))]
fn next_balance(r: Rules, want: u16, b: Balance) -> Balance
    ensures { result ≡ next_balance r want b }
{
    let rested = resting_word(r.n, r.r, b.bled, b.runs);
    let bled = choose(r.n, r.k, want, rested, b.start);
    Balance {
        begun: b.start,
        rested,
        bled,
        start: next_cell(r.n, b.start),
        runs: next_runs(bled, b.runs),
    }
}

// The pack after an accepted sample, if e are its highest and lowest cell: protections first, then bleeding with the new protections.
pub fn accept(p: Pack, s: Sample, e: Extremes) -> Pack
    requires { Watched p }
    ensures { result ≡ accepted_by e p s }
{
    let Guarded { protections, watch } = guard_watch::step(p.protections, p.watch, s, e);
    let raised = watch.raised != 0;
    let want = want_at(p.rules, s, e, raised);
    Pack {
        rules: p.rules,
        protections,
        watch,
        balance: next_balance(p.rules, want, p.balance),
        latest: s,
        sampled: true,
        command: p.command,
        tick: next_tick(p.tick),
    }
}
