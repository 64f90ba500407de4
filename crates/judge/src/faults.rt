// The first segment at fault, and why.
ghost use Rattle.std.specs.Prelude.{◌≡◌, true, ◌^◌, ◌≤◌, ◌<◌, pos, length};
ghost use Rattle.predict.specs.Lent.{lent_of, range_ok_rule};
ghost use Rattle.judge.specs.Judgement.{fault_number, fault_in, fault_of_rule, verdict, judged_from, ranges_ok_rule};

use crate::Judgement;
use crate::near::samples_ok;
use fit::samples::Samples;
use predict::segment::{Lent, length_ok, lent_at, place_in};
use whole::sign::size;

// Why a segment is at fault.
#[derive(Clone, Copy, Debug, PartialEq, Eq)]
enum Fault {
    Place,
    Length,
    Sample,
}

impl Fault {
    // The number that C gives for it. A match, not `as`: each number stands beside its name.
    fn number(self) -> i64
        ensures { result ≡ pos (fault_number self) }
    {
        match self {
            Fault::Place => 1,
            Fault::Length => 2,
            Fault::Sample => 3,
        }
    }
}

// Why a segment is at fault that `at` samples stand before, if it is.
fn fault_of(samples: Samples, at: u64, x: Lent) -> Option<Fault>
    requires at_in_bounds { (at ≤ length samples.values.now) × (length samples.values.now ≤ 4096) }
    requires in_range { range_ok_rule x ≡ true }
    ensures { fault_in result ≡ fault_of_rule samples.entry.values.now samples.entry.tolerance at x }
{
    if !place_in(samples.values.len() as u64, at, x) {
        return Some(Fault::Place);
    }
    if !length_ok(x) {
        return Some(Fault::Length);
    }
    if !samples_ok(samples, at as usize, x) {
        return Some(Fault::Sample);
    }
    None
}

// What is said of a track that nothing refuses, where segment i is at fault.
fn verdict(fault: Fault, i: usize) -> Judgement
    requires { i < 2 ^ 63 }
    ensures { result ≡ verdict (fault_number fault) i }
{
    Judgement {
        refusal: 0,
        fault: fault.number(),
        segment: i as i64,
    }
}

// The judgement of a track whose offsets and rates are in their ranges: the struct for C, as `judged_from` gives it, zeros where nothing is at fault.
pub fn first_fault(samples: Samples, track: &[i64]) -> Judgement
    requires few { length samples.values.now ≤ 4096 }
    requires in_range { ranges_ok_rule (lent_of track.now) ≡ true }
    ensures { result ≡ judged_from samples.entry.values.now samples.entry.tolerance 0 0 (lent_of track.now) }
{
    let m = track.len() / 4;
    let mut at: u64 = 0;
    for i in 0..m {
        let x = lent_at(track, i);
        if let Some(fault) = fault_of(samples, at, x) {
            return verdict(fault, i);
        }
        at += size(x.count);
    }
    if at < samples.values.len() as u64 {
        return verdict(Fault::Place, m);
    }
    Judgement {
        refusal: 0,
        fault: 0,
        segment: 0,
    }
}
