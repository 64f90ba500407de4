// The longest run of samples from a given one that some line fits.
ghost use Rattle.std.specs.Prelude.{◌≡◌, ◌+◌, ◌-◌, ◌≤◌, length};
ghost use Rattle.fit.specs.Greedy.{grow};
ghost use Rattle.fit.specs.Rates.{fit_of, least};

use super::chain::Chain;
use super::samples::{Samples, TILT};

// A run: its number of samples, and the least rate that they leave, tilted.
#[derive(Clone, Copy)]
pub struct Run {
    pub count: usize,
    pub least: u64,
}

// The longest run of at most `most` samples from `first` that some line fits. It is found by two chains, lent as scratch: one of the samples and one of the
// samples turned over, which leave the least rates `least` and `turned_least`. The run fits while both sum to at most twice the tilt. Two samples always fit.
pub fn longest_run(
    samples: Samples,
    first: usize,
    most: usize,
    plain: &mut Chain,
    turned: &mut Chain,
) -> Run
    requires { (1 ≤ most) × (most ≤ 1024) × (first + most ≤ length samples.values.now) }
    ensures { (result.count ≡ grow (fit_of samples.entry.values.now samples.entry.tolerance) (most - 1) first 1) × (result.least ≡ least samples.entry.values.now samples.entry.tolerance first result.count) }
{
    if most < 2 {
        return Run { count: 1, least: 0 };
    }
    let slack = 2 * (65536 * samples.tolerance);
    let a = samples.scaled_at(first);
    let b = samples.scaled_at(first + 1);
    let mut least = plain.pair(a, TILT + 1 + b, slack);
    let mut turned_least = turned.pair(TILT - slack - a, 2 * TILT + 1 - slack - b, slack);
    for c in 2..most {
        let next = c as u32;
        let rise = (TILT + 1) * (c as u64);
        let s = samples.scaled_at(first + c);
        let height = rise + s;
        let turned_height = rise + TILT - slack - s;
        let p = plain.ask(next, height, slack, least);
        let r = turned.ask(next, turned_height, slack, turned_least);
        if 2 * TILT < p + r {
            return Run { count: c, least };
        }
        least = p;
        turned_least = r;
        plain.add(next, height);
        turned.add(next, turned_height);
    }
    Run { count: most, least }
}
