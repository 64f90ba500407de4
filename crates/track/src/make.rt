// The track of samples and a tolerance that are in their ranges: what is left of a call once it is not refused with 2.
ghost use Rattle.std.specs.Prelude.{◌≡◌, true};
ghost use Rattle.track.specs.Answer.{in_range};
ghost use Rattle.track.specs.Promises.{TrackPromise};

use crate::count::count_segments;
use crate::noted::Runs;
use crate::write::write_segments;
use fit::samples::Samples;
use whole::{Number, Refusal};

// Writes the track to the start of the room, and answers how many segments it has. It is counted first, so that a room that is too short stays as it was.
// It answers a `Number` and no Result: `TrackPromise` is of that struct.
pub fn make_track(samples: &[i64], tolerance: i64, room: &mut [i64]) -> Number
    requires { in_range samples.now tolerance ≡ true }
    ensures { TrackPromise samples.now tolerance room.old result room.new }
{
    let samples = Samples {
        values: samples,
        tolerance: tolerance as u64,
    };
    let mut runs = Runs::NONE;
    let m = count_segments(samples, &mut runs);
    if room.len() / 4 < m {
        return Number::from(Err(Refusal::RoomForTrack));
    }
    write_segments(samples, &runs, m, room);
    Number::from(Ok(m as i64))
}
