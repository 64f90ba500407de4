// What reaches across the layers: the track of a pass, which specs/PassTrack.antt defines, the tracks of all passes, specs/AllTracks.antt, and the table of
// document 01's starred cases, specs/Starred.antt.
#![tactic(auto)]

mod single;
mod together;

ghost use Rattle.std.specs.Prelude.{◌≡◌, ltb, [], ◌∷◌, IfOk};
ghost use Rattle.whole.specs.Refusals.{first_of, number_in, unless};
ghost use Rattle.sections.specs.File.{refusal_of_rule, count_of_rule};
ghost use Rattle.session.specs.Records.{pass_of_rule};
ghost use Rattle.fringe.specs.AllTracks.{tracks_in, tracks_by};
ghost use Rattle.fringe.specs.Promises.{PassTrackPromise, AllTracksPromise};

use delay::SessionPass;
use sections::Session;
use single::track_in;
use together::{first_refused, write_tracks};
use whole::{Number, Refusal};

// A refusal, and how many segments each pass has: 0 beyond the last, and for all where refused. C has it, so that a refusal's number stands beside the counts.
#[repr(C)]
#[derive(Drop)]
pub struct Tracks {
    pub refusal: i64,
    pub counts: [i64; 64],
}

impl From<Result<[i64; 64], Refusal>> for Tracks {
    ghost from_gives = { λ r t. t ≡ tracks_in r };

    fn from(answer: Result<[i64; 64], Refusal>) -> Tracks {
        match answer {
            Ok(counts) => Tracks { refusal: 0, counts },
            Err(r) => Tracks {
                refusal: r.number(),
                counts: [0; 64],
            },
        }
    }
}

// The pass with this index of a file; refused as the file is, or beyond the last pass.
fn pass_in(file: &[u8], pass: usize) -> Result<SessionPass<'_>, Refusal>
    ensures number { number_in result ≡ first_of (refusal_of_rule file.now ∷ unless (ltb pass (count_of_rule file.now 3)) 5 ∷ []) }
    ensures pass { IfOk result (λ p. (p.session.file.now ≡ file.now) × (p.pass ≡ pass_of_rule file.now pass)) }
{
    SessionPass::find(Session::read(file)?, pass)
}

// Writes the track of a pass, counted from 0, to the start of the room, four numbers to a segment, and answers how many segments that is.
pub fn pass_track(file: &[u8], pass: usize, room: &mut [i64]) -> Number
    ensures { PassTrackPromise file.now pass room.old result room.new }
{
    match pass_in(file, pass) {
        Ok(p) => track_in(p, room),
        Err(r) => Number::from(Err(r)),
    }
}

// The same, with the counts in places that are lent: a result that holds them would keep a copy of them on the stack.
fn counted(file: &[u8], room: &mut [i64], counts: &mut [i64; 64]) -> Result<(), Refusal>
    ensures { AllTracksPromise file.now room.old (tracks_by result counts.new) room.new }
{
    let session = Session::read(file)?;
    first_refused(session, room.len() / 4)?;
    *counts = write_tracks(session, room);
    Ok(())
}

// Writes the tracks of all passes from the start of the room, each behind the last, and answers how many segments each has. Nothing is written before it is
// known that no pass is refused.
pub fn all_tracks(file: &[u8], room: &mut [i64]) -> Tracks
    ensures { AllTracksPromise file.now room.old result room.new }
{
    let mut counts = [0; 64];
    match counted(file, room, &mut counts) {
        Ok(()) => Tracks { refusal: 0, counts },
        Err(r) => Tracks::from(Err(r)),
    }
}
