// The delay that a lent track predicts at a sample, and the host record of it. Document 01, 'Track' and refusal 9.
// specs/Lent.antt says which tracks are malformed and what a sound one predicts; specs/Host.antt what the record holds.
#![tactic(auto)]

ghost use Rattle.whole.specs.Answers.{answer_in};
ghost use Rattle.predict.specs.Promises.{PredictPromise, HostPromise};

use whole::{Number, Refusal};

mod doubles;
mod lent;
pub mod segment;

// The prediction at the sample, in ps.
pub fn predict(track: &[i64], sample: u64) -> Number
    ensures { PredictPromise track.now sample result }
{
    Number::from(prediction(track, sample))
}

// The same as a result. All segments are looked at first, so that one which is malformed behind the sample refuses the call.
fn prediction(track: &[i64], sample: u64) -> Result<i64, Refusal>
    ensures { PredictPromise track.now sample (answer_in result) }
{
    if !lent::sound(track) {
        return Err(Refusal::Malformed);
    }
    lent::prediction_at(track, sample)
}

// Two doubles: seconds, and cycles of the 32 MHz clock.
#[repr(C)]
#[derive(Drop)]
pub struct Record {
    pub seconds: f64,
    pub cycles: f64,
}

// C reads it, so a refusal's number stands beside the record; where refused, the record is zeros.
#[repr(C)]
#[derive(Drop)]
pub struct Host {
    pub refusal: i64,
    pub record: Record,
}

// The host record of the prediction at the sample.
pub fn host_at(track: &[i64], sample: u64) -> Host
    ensures { HostPromise track.now sample result }
{
    match prediction(track, sample) {
        Ok(ps) => Host {
            refusal: 0,
            record: doubles::record_of(ps),
        },
        Err(r) => Host {
            refusal: r.number(),
            record: Record {
                seconds: 0.0,
                cycles: 0.0,
            },
        },
    }
}
