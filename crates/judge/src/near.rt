// Whether a segment keeps within the tolerance of its samples.
ghost use Rattle.std.specs.Prelude.{◌≡◌, true, length};
ghost use Rattle.predict.specs.Lent.{place_in_rule, length_ok_rule, range_ok_rule};
ghost use Rattle.judge.specs.Judgement.{samples_ok_rule};

use fit::samples::Samples;
use predict::segment::Lent;
use whole::sign::size;

// It asks what `fault_of` has just tested, and `judge` before it: a type for each stage of the tests would be no plainer.
// Goes from sample to sample by additions. A line that was near a sample passes no word at the next one, whatever the rate: the first that it misses ends the work.
pub fn samples_ok(samples: Samples, at: usize, x: Lent) -> bool
    requires { (place_in_rule (length samples.values.now) at x ≡ true) × (length_ok_rule x ≡ true) × (range_ok_rule x ≡ true) }
    ensures { result ≡ samples_ok_rule samples.entry.values.now samples.entry.tolerance at x }
{
    let most = 65536 * samples.tolerance;
    let n = size(x.count) as usize;
    let mut line = x.offset;
    for j in 0..n {
        let s = samples.values[at + j];
        if most < size(line - 65536 * s) {
            return false;
        }
        line += x.rate;
    }
    true
}
