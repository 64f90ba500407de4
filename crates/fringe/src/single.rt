// One pass of an accepted file: its samples, and from them its track. The answer is the number that `make_track` gives, which promises the whole outcome of a call
// of `track`: to make a `Result` of it here, and a number of that again, is no plainer.
ghost use Rattle.std.specs.Prelude.{◌≡◌, ◌≤◌, length};
ghost use Rattle.delay.specs.Calls.{samples_of};
ghost use Rattle.fringe.specs.OfRecord.{TrackBy};

use delay::SessionPass;
use track::make_track;
use whole::Number;

// What stands in a place for samples before they are written: a number that no sample is. It is not 0, because a fill with 0 takes more instructions: see
// docs/PERFORMANCE.md.
const UNWRITTEN: i64 = i64::MIN;

// Writes the track of a pass to the start of the room, and answers how many segments it has. The samples go to a place that is lent for them. They and the
// tolerance are in range, since the file is right, so that is not asked again.
fn track_by(p: SessionPass<'_>, place: &mut [i64], room: &mut [i64]) -> Number
    requires { samples_of p.pass ≤ length place.old }
    ensures { TrackBy p.entry.session.file.now p.entry.pass room.old result room.new }
{
    if let Err(r) = p.samples(place) {
        return Number::from(Err(r));
    }
    let k = p.pass.samples as usize;
    make_track(&place[..k], p.pass.tolerance, room)
}

// Writes the track of a pass to the start of the room, and answers how many segments it has. A short pass gets a short place, which is sooner filled.
pub fn track_in(p: SessionPass<'_>, room: &mut [i64]) -> Number
    ensures { TrackBy p.entry.session.file.now p.entry.pass room.old result room.new }
{
    if p.pass.samples <= 512 {
        return track_by(p, &mut [UNWRITTEN; 512], room);
    }
    track_by(p, &mut [UNWRITTEN; 4096], room)
}
