// The delay of a plane wave between two stations, from their records, a source's record and the earth at an epoch. Document 01, 'Day values' and 'Delay'.
#![tactic(auto)]

pub mod plane;
pub mod values;

ghost use Rattle.std.specs.Prelude.{◌≡◌};
ghost use Rattle.fields.specs.Records.{InSource, InStation};
ghost use Rattle.wave.specs.Values.{Short};
ghost use Rattle.wave.specs.Delays.{angle_for_rule, baseline_of};
ghost use Rattle.wave.specs.Keeping.{delay_seen_rule, sight_of};

use fields::{Source, Station};
use plane::{Baseline, Turn, delay_at, tick, turn_by};
use std::marker::Model;
use values::Earth;

// What is fixed in a pass: the baseline, the source, its right ascension as a tick, and the cosine and the sine of its declination.
#[derive(Clone, Copy)]
pub struct Sight {
    pub baseline: Baseline,
    pub source: Source,
    pub right_ascension: u32,
    pub declination: Turn,
}

impl Model for Sight {
    ghost use Rattle.wave.specs.Values.{Fixed, Short};

    ghost Value = { Fixed };

    ghost view = { λ a. record { baseline = a.baseline; source = a.source; right_ascension = a.right_ascension; declination = a.declination } };

    ghost inverse = { λ v. record { baseline = v.baseline; source = v.source; right_ascension = v.right_ascension; declination = v.declination } };

    ghost invariant = { λ a. Short a.baseline };
}

// Station 2 less station 1.
fn between(a: Station, b: Station) -> Baseline
    requires { InStation a × InStation b }
    ensures { (result ≡ baseline_of a b) × Short result }
{
    Baseline {
        x: b.x - a.x,
        y: b.y - a.y,
        z: b.z - a.z,
    }
}

// The sight from two stations to a source.
pub fn sight_of(a: Station, b: Station, r: Source) -> Sight
    requires { InStation a × InStation b × InSource r }
    ensures { result ≡ sight_of a b r }
{
    Sight {
        baseline: between(a, b),
        source: r,
        right_ascension: tick(r.right_ascension),
        declination: turn_by(tick(r.declination)),
    }
}

// The angle from which a source's right ascension is taken.
fn angle_for(r: Source, e: Earth) -> u32
    ensures { result ≡ angle_for_rule r e }
{
    e.tick
}

// The delay in picoseconds along a sight, with the earth as it is at an epoch.
pub fn delay_seen(v: Sight, e: Earth) -> i64
    ensures { result ≡ delay_seen_rule v e }
{
    let h = angle_for(v.source, e).wrapping_sub(v.right_ascension);
    delay_at(v.baseline, e.x, e.y, h, v.declination)
}
