// Refusal 2: what a track call takes.
ghost use Rattle.std.specs.Prelude.{◌≡◌, length};
ghost use Rattle.whole.specs.Each.{all_below};
ghost use Rattle.track.specs.Answer.{small_at, in_range};

use fields::ranges::{SAMPLES, TOLERANCE, inside};
use whole::below::all_pass;
use whole::sign::in_range;

// Whether each sample is at most 130_000_000_000 in size.
fn all_small(samples: &[i64]) -> bool
    ensures { result ≡ all_below (length samples.now) (small_at samples.now) }
{
    all_pass(
        samples.len(),
        |i| in_range(samples[i], -130_000_000_000, 130_000_000_000),
    )
}

// Whether the samples and the tolerance are in their ranges.
pub fn call_in_range(samples: &[i64], tolerance: i64) -> bool
    ensures { result ≡ in_range samples.now tolerance }
{
    inside(SAMPLES, samples.len() as i64) && inside(TOLERANCE, tolerance) && all_small(samples)
}
