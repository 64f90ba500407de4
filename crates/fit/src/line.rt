// The line of a run: its rate and its offset by the rule.
ghost use Rattle.std.specs.Prelude.{◌≡◌, cond, ◌+◌, ◌*◌, ◌≤◌, T, eqb, length};
ghost use Rattle.std.proofs.Math.IntN.{sub_ℕ};
ghost use Rattle.fit.specs.Rates.{scaled, tilt, lo, hi, off, fit_of, least, offset_of, rate_of_rule};

use super::run::Run;
use super::samples::{LIFT, Samples, TILT};

// An offset and a rate, both in 1/65,536 ps.
#[derive(Drop)]
pub struct Line {
    pub offset: i64,
    pub rate: i64,
}

// The rate of a run, tilted: the least that fits, and 0 for one sample.
fn rate_of(run: Run) -> u64
    ensures { result ≡ cond (eqb run.count 1) tilt run.least }
{
    if run.count == 1 { TILT } else { run.least }
}

// The least offset at the rate p, lifted, which the `count` samples from `first` leave.
fn offset_of(samples: Samples, first: usize, count: usize, p: u64) -> u64
    requires count_in_bounds { (first + count ≤ length samples.values.now) × (count ≤ 1024) }
    requires count_bound { (lo (scaled samples.values.now) (65536 * samples.tolerance) tilt first count ≤ p) × (p ≤ hi (scaled samples.values.now) (65536 * samples.tolerance) tilt first count) }
    ensures { result ≡ off (scaled samples.entry.values.now) (65536 * samples.entry.tolerance) tilt p first count }
{
    let w = 65536 * samples.tolerance;
    let mut a: u64 = 0;
    for j in 0..count {
        let k = j as u64;
        let u = TILT * k + samples.scaled_at(first + j);
        a = a.max(u.saturating_sub(w + p * k));
    }
    a
}

// How far a is above b: an offset with the lift taken off, or a rate with the tilt taken off.
fn signed(a: u64, b: u64) -> i64
    requires { (a ≤ 2 * tilt) × (b ≤ 2 * tilt) }
    ensures { result ≡ sub_ℕ a b }
{
    (a as i64) - (b as i64)
}

// The line of the run from `first`, which some line fits.
pub fn line_of(samples: Samples, first: usize, run: Run) -> Line
    requires le_count { (1 ≤ run.count) × (run.count ≤ 1024) × (first + run.count ≤ length samples.values.now) }
    requires fits { T (fit_of samples.values.now samples.tolerance first run.count) × (run.least ≡ least samples.values.now samples.tolerance first run.count) }
    ensures { (result.offset ≡ offset_of samples.entry.values.now samples.entry.tolerance first run.count) × (result.rate ≡ rate_of_rule samples.entry.values.now samples.entry.tolerance first run.count) }
{
    let p = rate_of(run);
    let a = offset_of(samples, first, run.count, p);
    Line {
        offset: signed(a, LIFT),
        rate: signed(p, TILT),
    }
}
