// The first step of a track: its runs, and so the number of its segments.
ghost use Rattle.std.specs.Prelude.{◌≡◌, ◌-◌, ◌<◌, ◌≤◌, min, length};
ghost use Rattle.track.specs.Made.{track_of, Stored};

use crate::noted::Runs;
use fit::chain::Chain;
use fit::run::longest_run;
use fit::samples::Samples;

// How many samples a run from f may have.
fn most_from(n: usize, f: usize) -> usize
    requires { f < n }
    ensures { result ≡ min 1024 (n - f) }
{
    (n - f).min(1024)
}

// How many segments the track has; its runs are noted. It is known only in the end how many they are, so f goes from run to run and m with it.
pub fn count_segments(samples: Samples, runs: &mut Runs) -> usize
    requires { length samples.values.now ≤ 4096 }
    ensures { (result ≡ length (track_of samples.entry.values.now samples.entry.tolerance)) × Stored samples.entry.values.now samples.entry.tolerance runs.new.counts runs.new.least result }
{
    let mut plain = Chain::SCRATCH;
    let mut turned = Chain::SCRATCH;
    let n = samples.values.len();
    let mut f: usize = 0;
    let mut m: usize = 0;
    while f < n {
        let run = longest_run(samples, f, most_from(n, f), &mut plain, &mut turned);
        runs.note(m, run);
        f += run.count;
        m += 1;
    }
    m
}
