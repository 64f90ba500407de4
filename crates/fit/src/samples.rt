// Samples with their tolerance, and each sample made non-negative, so that all that follows is unsigned.
ghost use Rattle.std.specs.Prelude.{◌≡◌, ◌<◌, ◌≤◌, length};
ghost use Rattle.whole.specs.Whole.{∣◌∣};
ghost use Rattle.fit.specs.Line.{Small};
ghost use Rattle.fit.specs.Rates.{bias, scaled};

// What is added to each sample, and scaled with it, and what is added to each rate: no number is then negative.
pub(crate) const LIFT: u64 = 130_001_000_000 * 65_536;

pub(crate) const TILT: u64 = 17_040_000_000_000_000;

// What a track is made of, in the ranges that refusal 2 leaves: each sample within ±130,000,000,000, and a tolerance of at most 1,000,000. How many samples
// there are is no part of it, since `longest_run` and `line_of` take any number, and a type would ask more of their callers. The public calls take both apart, for C.
#[derive(Clone, Copy)]
pub struct Samples<'a> {
    pub values: &'a [i64],
    pub tolerance: u64,
    pub ghost small: { Small values.now },
    pub ghost near: { tolerance ≤ 1_000_000 },
}

// The sample z, at most 130_000_000_000 in size, made non-negative.
fn biased(z: i64) -> u64
    requires { ∣ z ∣ ≤ 130_000_000_000 }
    ensures { result ≡ bias z }
{
    (z + 130_001_000_000) as u64
}

impl Samples<'_> {
    // The sample at i, made non-negative and scaled.
    pub(crate) fn scaled_at(self, i: usize) -> u64
        requires { i < length self.values.now }
        ensures { result ≡ scaled self.entry.values.now i }
    {
        biased(self.values[i]) * 65536
    }
}
