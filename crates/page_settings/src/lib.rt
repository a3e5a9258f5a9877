// What an accepted settings page says, in the units of the samples.

#![tactic(auto)]

ghost use Rattle.std.specs.Prelude.{◌≡◌, ◌≤◌, ◌<◌};
ghost use Rattle.units.specs.Levels.{level};
ghost use Rattle.protections.specs.Limits.{no_limits};
ghost use Rattle.page_words.specs.Ranges.{word_at};
ghost use Rattle.page_judge.specs.Page.{judged, refusals};
ghost use Rattle.refusals.specs.Refusals.{given};
ghost use Rattle.refusals.specs.Answers.{answer_of};
ghost use Rattle.refusals.specs.Verdicts.{Accepted};
ghost use Rattle.page_settings.specs.Settings.{in_degrees, sample_level, limits_from, page_protections, absent, limits_for, limits_of, rules_of, settings_of, no_settings, loaded_of};

use page_faults::{layout_of, trip_word};
use page_words::{level_of, word_at};
use protections::{Direction, Limits, PROTECTIONS, Quantity, back_of, row_of};
use refusals::Verdict;
use units::{Level, MilliVolts, ProtectionNo, signed_of};

// The page's words 1 to 8: cells n, most cells bled at once K, run limit R, balance floor and difference, charge detection current,
// charging voltage per cell and charging current.
#[repr(C)]
#[derive(Clone, Copy, Debug, PartialEq, Eq)]
pub struct Rules {
    pub n: u8,
    pub k: u8,
    pub r: u8,
    pub floor: MilliVolts,
    pub difference: MilliVolts,
    pub detection: i16,
    pub voltage: MilliVolts,
    pub current: i16,
}

// The settings: words 1 to 8, and the limits of every protection.
#[derive(Clone, Copy, Debug, PartialEq, Eq)]
pub struct Settings {
    pub rules: Rules,
    pub limits: [Limits; PROTECTIONS],
}

// A page's verdict, and what it says if it is accepted.
// Kept (promise): `load` gives settings of a refused page too (`loaded_of`, `no_settings`), so this is no Result.
#[derive(Clone, Copy, Debug, PartialEq, Eq)]
pub struct Loaded {
    pub verdict: Verdict,
    pub settings: Settings,
}

// Whether the page gives the levels of this quantity in degrees.
#[tactic(auto, unfolding(crate::specs::Settings::in_degrees))]
fn in_degrees(quantity: Quantity) -> bool
    ensures { result ≡ in_degrees quantity }
{
    matches!(quantity, Quantity::Temperature1 | Quantity::Temperature2)
}

// The level that a word stands for, in the sample's unit, where it is reached in this direction: degrees fall between two tenths.
#[tactic(auto, unfolding(crate::specs::Settings::sample_level))]
fn sample_level(direction: Direction, quantity: Quantity, x: u16) -> Level
    ensures { result ≡ level (sample_level direction quantity x) }
{
    let z = level_of(quantity, x);
    if !in_degrees(quantity) {
        return Level(z.0);
    }
    match direction {
        Direction::Above => Level(10 * z.0 + 2732),
        Direction::Below => Level(10 * z.0 + 2731),
    }
}

// A word that fits a byte.
fn small(page: &[u8], i: u16) -> u8
    requires { word_at page.now i ≤ 255 }
    ensures { result ≡ word_at page.now i }
{
    word_at(page, i) as u8
}

// How many protections the page has, by its length: those from 0 on.
fn page_protections(page: &[u8]) -> u8
    ensures { result ≡ page_protections page.now }
{
    layout_of(page.len()).protections
}

// What an accepted page says of protection p, which it has: the five words from its trip word on.
#[tactic(auto, unfolding(crate::specs::Settings::limits_from))]
fn limits_from(page: &[u8], p: ProtectionNo) -> Limits
    requires { (judged page.now ≡ Accepted) × (p.0 < page_protections page.now) }
    ensures { result ≡ limits_from page.now p.0 }
{
    let row = row_of(p);
    let at = trip_word(p);
    Limits {
        trip: sample_level(row.direction, row.quantity, word_at(page, at)),
        release: sample_level(back_of(row.direction), row.quantity, word_at(page, at + 1)),
        n: small(page, at + 2),
        m: small(page, at + 3),
        mask: small(page, at + 4),
    }
}

// What stands for a protection that the page does not have: no temperature is below 0.
fn absent_limits() -> Limits
    ensures { result ≡ absent }
{
    let trip = Level(-1);
    let release = Level(0);
    Limits {
        trip,
        release,
        n: 1,
        m: 1,
        mask: 0,
    }
}

// What an accepted page says of protection p, if it has it.
#[tactic(auto, unfolding(crate::specs::Settings::limits_for))]
fn limits_for(page: &[u8], p: ProtectionNo) -> Limits
    requires { judged page.now ≡ Accepted }
    ensures { result ≡ limits_for page.now p.0 }
{
    if p.0 < page_protections(page) {
        return limits_from(page, p);
    }
    absent_limits()
}

fn no_limits() -> Limits
    ensures { result ≡ no_limits }
{
    Limits {
        trip: Level(0),
        release: Level(0),
        n: 0,
        m: 0,
        mask: 0,
    }
}

// What an accepted page says of each protection.
fn limits_of(page: &[u8]) -> [Limits; PROTECTIONS]
    requires { judged page.now ≡ Accepted }
    ensures { result ≡ limits_of page.now }
{
    let mut all = [no_limits(); PROTECTIONS];
    for p in 0..PROTECTIONS {
        all[p] = limits_for(page, ProtectionNo(p as u8));
    }
    all
}

// What an accepted page says in its words 1 to 8.
#[tactic(auto, unfolding(crate::specs::Settings::rules_of))]
fn rules_of(page: &[u8]) -> Rules
    requires { judged page.now ≡ Accepted }
    ensures { result ≡ rules_of page.now }
{
    Rules {
        n: small(page, 1),
        k: small(page, 2),
        r: small(page, 3),
        floor: MilliVolts(word_at(page, 4)),
        difference: MilliVolts(word_at(page, 5)),
        detection: signed_of(word_at(page, 6)),
        voltage: MilliVolts(word_at(page, 7)),
        current: signed_of(word_at(page, 8)),
    }
}

// What an accepted page says.
#[tactic(auto, unfolding(crate::specs::Settings::settings_of))]
fn settings_of(page: &[u8]) -> Settings
    requires { judged page.now ≡ Accepted }
    ensures { result ≡ settings_of page.now }
{
    Settings {
        rules: rules_of(page),
        limits: limits_of(page),
    }
}

// The settings that go with a refused page: 0 throughout.
#[tactic(auto, unfolding(crate::specs::Settings::no_settings))]
fn no_settings() -> Settings
    ensures { result ≡ no_settings }
{
    Settings {
        rules: Rules {
            n: 0,
            k: 0,
            r: 0,
            floor: MilliVolts(0),
            difference: MilliVolts(0),
            detection: 0,
            voltage: MilliVolts(0),
            current: 0,
        },
        limits: [no_limits(); PROTECTIONS],
    }
}

// Judges a page of any length, and reads its settings if it is accepted. The verdict has the number and word of the refusal table.
pub fn load(page: &[u8]) -> Loaded
    ensures { (result ≡ loaded_of page.now) × (answer_of result.verdict ≡ given (refusals page.now)) }
{
    let verdict = page_judge::judge(page);
    match verdict {
        Ok(()) => Loaded {
            verdict,
            settings: settings_of(page),
        },
        Err(_) => Loaded {
            verdict,
            settings: no_settings(),
        },
    }
}
