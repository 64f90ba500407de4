// The judgement of a track that was made elsewhere, given the samples that it is for. Document 02, L7.
// specs/Judgement.antt says what is accepted and which fault is named; specs/Accepted.antt that only tracks of the samples are accepted.
#![tactic(auto)]

ghost use Rattle.std.specs.Prelude.{◌≡◌};
ghost use Rattle.whole.specs.Refusals.{number_of};
ghost use Rattle.judge.specs.Judgement.{no_judgement};
ghost use Rattle.judge.specs.Promises.{JudgePromise};

use fit::samples::Samples;
use track::range::call_in_range;
use whole::Refusal;

pub mod faults;
mod near;
mod ranges;

// C reads it, so a refusal, a fault and the segment at fault are numbers; 0 where there is none.
#[repr(C)]
#[derive(Drop)]
pub struct Judgement {
    pub refusal: i64,
    pub fault: i64,
    pub segment: i64,
}

// That of a refused call.
impl From<Refusal> for Judgement {
    ghost from_gives = { λ r j. j ≡ no_judgement (number_of r) };

    fn from(r: Refusal) -> Judgement {
        Judgement {
            refusal: r.number(),
            fault: 0,
            segment: 0,
        }
    }
}

// Accepted, or the first segment at fault and why.
pub fn judge(samples: &[i64], tolerance: i64, track: &[i64]) -> Judgement
    ensures { JudgePromise samples.now tolerance track.now result }
{
    if !call_in_range(samples, tolerance) {
        return Judgement::from(Refusal::Range);
    }
    if !ranges::ranges_ok(track) {
        return Judgement::from(Refusal::Malformed);
    }
    let samples = Samples {
        values: samples,
        tolerance: tolerance as u64,
    };
    faults::first_fault(samples, track)
}
