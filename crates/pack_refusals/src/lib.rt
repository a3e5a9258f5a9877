// Offered samples and switch commands: document 01's refusals 9, 10, 11 and 16, and what is kept of an accepted sample.

#![tactic(auto)]

ghost use Rattle.std.specs.Prelude.{◌≡◌};
ghost use Rattle.refusals.specs.Answers.{answer_of};
ghost use Rattle.refusals.specs.Refusals.{given};
ghost use Rattle.sample.specs.Cells.{extremes_of};
ghost use Rattle.pack_refusals.specs.Samples.{temperature_fits, temperatures_verdict, sample_refusals, sample_verdict, command_refusals, command_verdict, kept_cell, trimmed};
ghost use Rattle.pack_refusals.specs.SampleLaws.{verdict_by};

use refusals::{Verdict, refused};
use sample::{Extremes, Sample};
use units::{DeciKelvin, MilliVolts};

#[tactic(auto, unfolding(page_words::specs::Ranges::within))]
fn temperature_fits(t: DeciKelvin) -> bool
    ensures { result ≡ temperature_fits t.0 }
{
    (2000..=4500).contains(&t.0)
}

#[tactic(auto, unfolding(crate::specs::Samples::temperatures_verdict))]
fn temperatures_verdict(t1: DeciKelvin, t2: DeciKelvin) -> Verdict
    ensures { result ≡ temperatures_verdict t1.0 t2.0 }
{
    if temperature_fits(t1) && temperature_fits(t2) {
        return Ok(());
    }
    refused(11)
}

// What document 01 answers to a sample that is offered to a pack of n cells, if e are its highest and lowest cell: where the highest is no
// more than 6000 mV, no cell is. n is 0 in a pack without a page.
pub fn sample_verdict(n: u8, s: Sample, e: Extremes) -> Verdict
    ensures value { result ≡ verdict_by e n s }
    ensures value_2 { e ≡ extremes_of s.cells s.count → (result ≡ sample_verdict n s) × (answer_of result ≡ given (sample_refusals n s)) }
{
    if n == 0 {
        return refused(9);
    }
    if s.count != n {
        return refused(9);
    }
    if e.highest.volts.0 <= 6000 {
        return temperatures_verdict(s.t1, s.t2);
    }
    refused(10)
}

// What it answers to a switch command.
pub fn command_verdict(c: u16) -> Verdict
    ensures { (result ≡ command_verdict c) × (answer_of result ≡ given (command_refusals c)) }
{
    if c <= 3 {
        return Ok(());
    }
    refused(16)
}

// ---- what is kept of an accepted sample

#[tactic(auto, unfolding(crate::specs::Samples::kept_cell))]
fn kept_cell(count: u8, i: u8, v: MilliVolts) -> MilliVolts
    ensures { result ≡ kept_cell count i v }
{
    if i < count {
        return v;
    }
    MilliVolts(0)
}

// The sample with 0 in the entries past its count.
pub fn trim(mut s: Sample) -> Sample
    ensures { result ≡ trimmed s }
{
    for i in 0..10 {
        let at = usize::from(i);
        s.cells[at] = kept_cell(s.count, i, s.cells[at]);
    }
    s
}
