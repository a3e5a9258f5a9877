// What the state of a pack shows: the switches, the mode, and the five fields of a line of the replay.

#![tactic(auto)]

ghost use Rattle.std.specs.Prelude.{◌≡◌, ◌<◌};
ghost use Rattle.laws.specs.Bits.{has_bit};
ghost use Rattle.pack_state.specs.State.{Watched};
ghost use Rattle.pack_shown.specs.Shown.{switch_on, switches_of, mode_order, first_mode, flow_mode, mode_of, decision_of};

use bleed_wants::is_charging;
use laws::{has_bit, with_bit_if};
use pack_state::Pack;
use protections::row_of;
use units::ProtectionNo;

// The five fields of a line of the replay.
#[derive(Clone, Copy, Debug, PartialEq, Eq)]
pub struct Decision {
    pub tick: u32,
    pub raised: u16,
    pub fets: u16,
    pub balance: u16,
    pub mode: u16,
}

// Whether a switch is on: 0 is charge, 1 is discharge.
fn switch_on(p: Pack, switch: u8) -> bool
    requires { Watched p × (switch < 2) }
    ensures { result ≡ switch_on p switch }
{
    p.sampled && has_bit(u16::from(p.command), switch) && !has_bit(p.watch.blocked, switch)
}

// The switches that are on: bit 0 charge, bit 1 discharge.
#[tactic(auto, unfolding(crate::specs::Shown::switches_of))]
pub fn switches(p: Pack) -> u16
    requires { Watched p }
    ensures { result ≡ switches_of p }
{
    let charge = with_bit_if(0, 0, switch_on(p, 0));
    with_bit_if(charge, 1, switch_on(p, 1))
}

// The order in which raised protections give the mode.
const ORDER: [ProtectionNo; 7] = [
    ProtectionNo(4),
    ProtectionNo(3),
    ProtectionNo(2),
    ProtectionNo(0),
    ProtectionNo(7),
    ProtectionNo(6),
    ProtectionNo(5),
];

// The mode of the first raised protection of the order, or `other`.
fn first_mode(raised: u16, other: u8) -> u8
    ensures { result ≡ first_mode (has_bit raised) mode_order other }
{
    // Most often none is raised.
    if raised == 0 {
        return other;
    }
    for p in ORDER {
        if has_bit(raised, p.0) {
            return row_of(p).mode.unwrap_or(0);
        }
    }
    other
}

fn flow_mode(charging: bool) -> u8
    ensures { result ≡ flow_mode charging }
{
    if charging {
        return 0x03;
    }
    0x02
}

// The mode, as command 0x41 sends it.
#[tactic(auto, unfolding(crate::specs::Shown::mode_of, guard_watch::specs::Watch::watch_of))]
pub fn mode(p: Pack) -> u16
    requires { Watched p }
    ensures { result ≡ mode_of p }
{
    if p.sampled {
        let other = flow_mode(is_charging(p.rules.detection, p.latest.current));
        return u16::from(first_mode(p.watch.raised, other));
    }
    0
}

// The five fields of a line of the replay.
#[tactic(auto, unfolding(crate::specs::Shown::decision_of, guard_watch::specs::Watch::watch_of))]
pub fn decide(p: Pack) -> Decision
    requires { Watched p }
    ensures { result ≡ decision_of p }
{
    Decision {
        tick: p.tick,
        raised: p.watch.raised,
        fets: switches(p),
        balance: p.balance.bled,
        mode: mode(p),
    }
}
