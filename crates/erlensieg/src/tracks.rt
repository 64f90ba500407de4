// Tracks, and what they predict.
ghost use Rattle.track.specs.Promises.{TrackPromise};
ghost use Rattle.fringe.specs.Promises.{PassTrackPromise, AllTracksPromise};
ghost use Rattle.predict.specs.Promises.{PredictPromise, HostPromise};

use fringe::Tracks;
use predict::Host;
use whole::Number;

#[unsafe(no_mangle)]
pub extern "C" fn fringe_track(samples: &[i64], tolerance: i64, room: &mut [i64]) -> Number
    ensures { TrackPromise samples.now tolerance room.old result room.new }
{
    track::track(samples, tolerance, room)
}

#[unsafe(no_mangle)]
pub extern "C" fn fringe_pass_track(file: &[u8], pass: usize, room: &mut [i64]) -> Number
    ensures { PassTrackPromise file.now pass room.old result room.new }
{
    fringe::pass_track(file, pass, room)
}

#[unsafe(no_mangle)]
pub extern "C" fn fringe_all_tracks(file: &[u8], room: &mut [i64]) -> Tracks
    ensures { AllTracksPromise file.now room.old result room.new }
{
    fringe::all_tracks(file, room)
}

#[unsafe(no_mangle)]
pub extern "C" fn fringe_predict(track: &[i64], sample: u64) -> Number
    ensures { PredictPromise track.now sample result }
{
    predict::predict(track, sample)
}

#[unsafe(no_mangle)]
pub extern "C" fn fringe_host_at(track: &[i64], sample: u64) -> Host
    ensures { HostPromise track.now sample result }
{
    predict::host_at(track, sample)
}
