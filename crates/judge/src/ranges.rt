// Refusal 9: the offsets and the rates of a lent track.
ghost use Rattle.std.specs.Prelude.{◌≡◌};
ghost use Rattle.predict.specs.Lent.{lent_of};
ghost use Rattle.judge.specs.Judgement.{ranges_ok_rule};

use predict::segment::{bounds_ok, lent_at};
use whole::below::all_pass;

// Whether the offset and the rate of every whole segment are in their ranges.
pub fn ranges_ok(track: &[i64]) -> bool
    ensures { result ≡ ranges_ok_rule (lent_of track.now) }
{
    all_pass(track.len() / 4, |i| bounds_ok(lent_at(track, i)))
}
