// The track of samples: the fewest segments, each within the tolerance of its samples. Document 01, 'Track'.
// specs/Segments.antt says what a track is, specs/Rule.antt which one is made, specs/Answer.antt what the call answers,
// specs/Fewest.antt what demand 3 says of a call.
#![tactic(auto)]

ghost use Rattle.track.specs.Promises.{TrackPromise};

pub use make::make_track;
use whole::{Number, Refusal};

mod count;
mod make;
mod noted;
pub mod range;
mod write;

// Writes the track of the samples to the start of the room, four numbers to a segment, and answers how many segments that is.
pub fn track(samples: &[i64], tolerance: i64, room: &mut [i64]) -> Number
    ensures { TrackPromise samples.now tolerance room.old result room.new }
{
    if !range::call_in_range(samples, tolerance) {
        return Number::from(Err(Refusal::Range));
    }
    make_track(samples, tolerance, room)
}
