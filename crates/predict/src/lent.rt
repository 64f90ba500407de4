// A lent track, read segment by segment. The two walks stop at different things and give out different things, and the second asks that the first found nothing: one
// walk over a closure would carry the conditions of both, and be no plainer.
ghost use Rattle.std.specs.Prelude.{◌≡◌, true};
ghost use Rattle.whole.specs.Answers.{answer_in};
ghost use Rattle.predict.specs.Lent.{lent_of, sound_from, answer_at};

use super::segment::{lent_at, segment_ok};
use whole::Refusal;
use whole::divide::round_div;
use whole::sign::size;

// Whether no segment is malformed; each one is looked at.
pub fn sound(track: &[i64]) -> bool
    ensures { result ≡ sound_from 0 (lent_of track.now) }
{
    let mut at: u64 = 0;
    for i in 0..track.len() / 4 {
        let x = lent_at(track, i);
        if !segment_ok(at, x) {
            return false;
        }
        at += size(x.count);
    }
    true
}

// The prediction at the sample of a track that is sound; 9 where no segment covers it.
pub fn prediction_at(track: &[i64], sample: u64) -> Result<i64, Refusal>
    requires { sound_from 0 (lent_of track.now) ≡ true }
    ensures { answer_in result ≡ answer_at (lent_of track.now) sample }
{
    let mut at: u64 = 0;
    for i in 0..track.len() / 4 {
        let x = lent_at(track, i);
        let end = at + size(x.count);
        if sample < end {
            let j = (sample - at) as i64;
            return Ok(round_div(x.offset + x.rate * j, 65536));
        }
        at = end;
    }
    Err(Refusal::Malformed)
}
