// The second step of a track: its segments written to the lent room.
ghost use Rattle.std.specs.Prelude.{◌≡◌, ◌∷◌, ◌++◌, ◌+◌, ◌*◌, ◌<◌, ◌≤◌, length, take, drop};
ghost use Rattle.track.specs.Segments.{flat};
ghost use Rattle.track.specs.Made.{track_of, Stored};

use crate::noted::Runs;
use fit::line::line_of;
use fit::samples::Samples;

// Stores four numbers in the room, from `at` on.
fn put(room: &mut [i64], at: usize, a: i64, b: i64, c: i64, d: i64)
    requires { at + 3 < length room.old }
    ensures { room.new ≡ take at room.old ++ (a ∷ b ∷ c ∷ d ∷ drop (at + 4) room.old) }
{
    room[at..at + 4].copy_from_slice(&[a, b, c, d]);
}

// Writes the track, whose runs, so many, are all noted, to the start of the room, which has place for it.
pub fn write_segments(samples: Samples, runs: &Runs, many: usize, room: &mut [i64])
    requires all { (many ≡ length (track_of samples.values.now samples.tolerance)) × (many ≤ 2048) }
    requires stored { Stored samples.values.now samples.tolerance runs.now.counts runs.now.least many }
    requires fits { 4 * many ≤ length room.old }
    ensures { room.new ≡ flat (track_of samples.entry.values.now samples.entry.tolerance) ++ drop (4 * length (track_of samples.entry.values.now samples.entry.tolerance)) room.old }
{
    let mut f: usize = 0;
    for m in 0..many {
        let run = runs.at(m);
        let line = line_of(samples, f, run);
        put(
            room,
            4 * m,
            f as i64,
            run.count as i64,
            line.offset,
            line.rate,
        );
        f += run.count;
    }
}
