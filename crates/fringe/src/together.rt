// All passes of an accepted file: whether one of them is refused, and their tracks, each behind the last. Room is counted in segments, but where it is lent.
ghost use Rattle.std.specs.Prelude.{◌≡◌, ◌++◌, ◌-◌, ◌≤◌, pos, replicate, IfOk};
ghost use Rattle.whole.specs.Refusals.{number_in};
ghost use Rattle.sections.specs.File.{count_of_rule};
ghost use Rattle.delay.specs.Keeping.{lacks_of};
ghost use Rattle.fringe.specs.AllTracks.{in_turn};
ghost use Rattle.fringe.specs.Sharing.{most_of, most_from_rule, number_from_rule, taken_of};

use crate::single::track_in;
use delay::SessionPass;
use sections::Session;
use whole::Refusal;
use whole::sign::size;

// ---- whether a pass is refused

// How many segments the track of a pass has at most.
fn most_segments(p: SessionPass<'_>) -> usize
    ensures { (result ≡ most_of p.entry.pass) × (result ≤ 2048) }
{
    (p.pass.samples as usize + 1) / 2
}

// How many the tracks of all passes have at most.
fn most_in_all(session: Session<'_>) -> usize
    ensures { result ≡ most_from_rule session.entry.file.now (count_of_rule session.entry.file.now 3) 0 }
{
    let mut most = 0;
    for i in 0..session.count(3) {
        most += most_segments(SessionPass::at(session, i));
    }
    most
}

// How many segments a pass takes of the room that is left; refused where the file lacks something for it. Where the room left is ample, a pass takes as many
// segments as its track may have, and its samples are not worked out. Else it takes those that its track has.
fn taken_by(p: SessionPass<'_>, ample: bool) -> Result<usize, Refusal>
    ensures number { number_in result ≡ lacks_of p.entry.session.file.now p.entry.pass 4096 }
    ensures segments { IfOk result (λ m. m ≡ taken_of p.entry.session.file.now p.entry.pass ample) }
{
    p.places(4096)?;
    if ample {
        return Ok(most_segments(p));
    }
    let r = track_in(p, &mut [0; 8192]);
    Ok(size(r.value) as usize)
}

// Refused as the first pass is that is refused. Once the room left is ample for all passes to come, none of them is refused for room, and their samples wait
// until they are written.
pub fn first_refused(session: Session<'_>, room: usize) -> Result<(), Refusal>
    ensures { number_in result ≡ number_from_rule session.entry.file.now (count_of_rule session.entry.file.now 3) 0 room }
{
    let mut left = room;
    let mut most = most_in_all(session);
    for i in 0..session.count(3) {
        let p = SessionPass::at(session, i);
        let taken = taken_by(p, most <= left)?;
        if left < taken {
            return Err(Refusal::RoomForTrack);
        }
        left -= taken;
        most -= most_segments(p);
    }
    Ok(())
}

// ---- their tracks

// Writes the tracks of all passes, none of which is refused, and answers how many segments each has: the 64 counts of `Tracks`, as C has them.
pub fn write_tracks(session: Session<'_>, room: &mut [i64]) -> [i64; 64]
    requires { (in_turn session.file.now (count_of_rule session.file.now 3) 0 room.old).refusal ≡ 0 }
    ensures counts { result ≡ (in_turn session.entry.file.now (count_of_rule session.entry.file.now 3) 0 room.old).counts ++ replicate (64 - count_of_rule session.entry.file.now 3) (pos 0) }
    ensures room { room.new ≡ (in_turn session.entry.file.now (count_of_rule session.entry.file.now 3) 0 room.old).room }
{
    let mut counts = [0i64; 64];
    let mut at: usize = 0;
    for i in 0..session.count(3) {
        let r = track_in(SessionPass::at(session, i), &mut room[at..]);
        counts[i] = r.value;
        at += 4 * size(r.value) as usize;
    }
    counts
}
