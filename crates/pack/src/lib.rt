// The pack: loading a page, offering a sample, commanding the switches.

#![tactic(auto)]

ghost use Rattle.std.specs.Prelude.{◌≡◌};
ghost use Rattle.refusals.specs.Answers.{answer_of};
ghost use Rattle.refusals.specs.Refusals.{given};
ghost use Rattle.page_judge.specs.Page.{refusals};
ghost use Rattle.pack_refusals.specs.Samples.{sample_refusals, command_refusals};
ghost use Rattle.pack_state.specs.State.{fresh_balance, fresh_pack};
ghost use Rattle.pack.specs.Answers.{offered, commanded};
ghost use Rattle.pack.specs.Kept.{after_load};

use guard::all::fresh;
use guard_watch::watch_of;
use pack_refusals::{command_verdict, sample_verdict, trim};
use pack_state::{Balance, Pack, accept};
use page_settings::Settings;
use refusals::Verdict;
use sample::{Sample, extremes_of, no_sample};
use std::marker::Model;
use units::CellNo;

// A pack as a load or a later call handed it back: its state is that of some page and some events. A clause sees the state.
#[derive(Clone, Copy)]
pub struct Keeper {
    pub pack: Pack,
}

impl Model for Keeper {
    ghost use Rattle.pack_state.specs.declared.Pack.{Pack};

    ghost Value = { Pack };

    ghost use Rattle.pack.specs.Kept.{Kept};

    ghost view = { λ k. k.pack };

    ghost inverse = { λ p. record { pack = p } };

    ghost invariant = { λ k. Kept k.pack };
}

// What a call answers, beside the pack that it hands back.
// Kept (promise): `load`, `offer` and `command` hand a pack back on a refusal too, so this is no Result.
#[derive(Clone, Copy)]
pub struct Answered {
    pub verdict: Verdict,
    pub pack: Keeper,
}

#[tactic(auto, unfolding(pack_state::specs::State::fresh_balance))]
fn fresh_balance() -> Balance
    ensures { result ≡ fresh_balance }
{
    Balance {
        begun: CellNo(1),
        rested: 0,
        bled: 0,
        start: CellNo(1),
        runs: [0; 10],
    }
}

#[tactic(auto, unfolding(pack_state::specs::State::fresh_pack))]
fn fresh_pack(s: Settings) -> Pack
    ensures { result ≡ fresh_pack s }
{
    let protections = fresh(s.limits);
    Pack {
        rules: s.rules,
        protections,
        watch: watch_of(protections),
        balance: fresh_balance(),
        latest: no_sample(),
        sampled: false,
        command: 0,
        tick: 0,
    }
}

// Loads a page: its verdict, and a pack with no sample yet. A refused page gives the pack without a page.
pub fn load(bytes: &[u8]) -> Answered
    ensures value { result ≡ after_load bytes.now }
    ensures verdict_value { answer_of result.verdict ≡ given (refusals bytes.now) }
{
    let loaded = page_settings::load(bytes);
    let pack = fresh_pack(loaded.settings);
    Answered {
        verdict: loaded.verdict,
        pack: Keeper { pack },
    }
}

// Offers a sample: refused with 9, 10 or 11, and the pack as it was; or accepted.
pub fn offer(k: Keeper, s: Sample) -> Answered
    ensures value { result ≡ offered k s }
    ensures verdict_value { answer_of result.verdict ≡ given (sample_refusals k.rules.n s) }
{
    let p = k.pack;
    let e = extremes_of(s.cells, s.count);
    let verdict = sample_verdict(p.rules.n, s, e);
    match verdict {
        Ok(()) => {
            let pack = accept(p, trim(s), e);
            Answered {
                verdict,
                pack: Keeper { pack },
            }
        }
        Err(_) => Answered { verdict, pack: k },
    }
}

// Commands the switches, bit 0 charge and bit 1 discharge: refused with 16, or done, and nothing else is touched.
pub fn command(k: Keeper, c: u16) -> Answered
    ensures value { result ≡ commanded k c }
    ensures verdict_value { answer_of result.verdict ≡ given (command_refusals c) }
{
    let verdict = command_verdict(c);
    match verdict {
        Ok(()) => {
            let mut pack = k.pack;
            pack.command = (c % 256) as u8;
            Answered {
                verdict,
                pack: Keeper { pack },
            }
        }
        Err(_) => Answered { verdict, pack: k },
    }
}
