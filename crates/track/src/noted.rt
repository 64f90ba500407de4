// The runs of a track, noted as they are counted, so that they need not be looked for again when they are written.
ghost use Rattle.std.specs.Prelude.{◌≡◌, ◌<◌, set, get_or};

use fit::run::Run;

// There are at most 2,048 runs, and their number is kept apart, since there is no heap. A run has at most 1,024 samples, so that 16 bits hold how many: the numbers
// and the least rates have an array each, since an array of `Run` would be cleared in each call too, and is 12 KiB more.
#[derive(Drop)]
pub struct Runs {
    counts: [u16; 2048],
    least: [u64; 2048],
}

impl Runs {
    // No run noted yet.
    pub const NONE: Runs = Runs {
        counts: [0; 2048],
        least: [0; 2048],
    };

    // Notes the run m.
    pub fn note(&mut self, m: usize, run: Run)
        requires { (m < 2048) × (run.count < 65_536) }
        ensures { (self.new.counts ≡ set self.old.counts m run.count) × (self.new.least ≡ set self.old.least m run.least) }
    {
        self.counts[m] = run.count as u16;
        self.least[m] = run.least;
    }

    // The run m, as it was noted.
    pub fn at(&self, m: usize) -> Run
        requires { m < 2048 }
        ensures { (result.count ≡ get_or self.now.counts m 0) × (result.least ≡ get_or self.now.least m 0) }
    {
        Run {
            count: self.counts[m] as usize,
            least: self.least[m],
        }
    }
}
