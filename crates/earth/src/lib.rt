// Earth rotation by whole numbers: epochs, minutes of TT, the five arguments, the tide in UT1, the rotation angle.
#![tactic(auto)]

pub mod rows;
pub mod ticks;
pub mod time;
pub mod turn;

ghost use Rattle.std.specs.Prelude.{◌≡◌, ◌^◌, ◌<◌, true, false, IfOk, IfErr};
ghost use Rattle.whole.specs.Whole.{∣◌∣};
ghost use Rattle.fields.specs.Ranges.{Holds, mjd, taiutc};
ghost use Rattle.earth.specs.Minutes.{minutes_of};
ghost use Rattle.whole.specs.Refusals.{number_of};
ghost use Rattle.earth.specs.Calls.{angle_inside, epoch_inside, epoch_of};
ghost use Rattle.earth.specs.Promises.{LaterPromise, ArgumentsPromise, TidePromise, AnglePromise, RotatePromise};

use fields::ranges::{MILLISECOND, MJD, Range, TAI_UTC, inside};
use rows::tide_at_minute;
pub use ticks::Delaunay;
use ticks::arguments_at;
use time::ADDED;
pub use time::Epoch;
use turn::{MICROSECOND, turn_of};
use whole::long::rotation_ticks;
use whole::{Number, Refusal};

// C reads the three answers as they stand, the refusal's number first; inside it is a `Refusal`.
#[repr(C)]
#[derive(Drop)]
pub struct EpochAnswer {
    pub refusal: i64,
    pub day: i64,
    pub ms: i64,
}

// Minutes of TT, and the five arguments.
#[repr(C)]
#[derive(Drop)]
pub struct TicksAnswer {
    pub refusal: i64,
    pub n: i64,
    pub l: u32,
    pub lp: u32,
    pub f: u32,
    pub d: u32,
    pub om: u32,
}

// E, and ERA.
#[repr(C)]
#[derive(Drop)]
pub struct AngleAnswer {
    pub refusal: i64,
    pub e: i64,
    pub tick: u32,
}

// The epoch that a call asks for, unless it, or `more` by its own range, is refused. C hands over the three numbers one by one.
fn asked(day: i64, ms: i64, more: i64, range: Range) -> Result<Epoch, Refusal>
    ensures ok { IfOk result (λ e. (e ≡ epoch_of day ms) × Holds mjd e.day × Holds range more × (epoch_inside range day ms more ≡ true)) }
    ensures err { IfErr result (λ r. (number_of r ≡ 2) × (epoch_inside range day ms more ≡ false)) }
{
    if inside(MJD, day) && inside(MILLISECOND, ms) && inside(range, more) {
        Ok(Epoch { day, ms })
    } else {
        Err(Refusal::Range)
    }
}

// The minutes of TT at an epoch, where TAI-UTC is `tai` seconds.
fn minutes_asked(day: i64, ms: i64, tai: i64) -> Result<i64, Refusal>
    ensures ok { IfOk result (λ n. (n ≡ minutes_of (epoch_of day ms) tai) × (∣ n ∣ < 2 ^ 26) × (epoch_inside taiutc day ms tai ≡ true)) }
    ensures err { IfErr result (λ r. (number_of r ≡ 2) × (epoch_inside taiutc day ms tai ≡ false)) }
{
    let e = asked(day, ms, tai, TAI_UTC)?;
    Ok(e.minutes(tai))
}

// The epoch that is `add` milliseconds later.
#[tactic(auto, unfolding(crate::specs::Calls::later_outcome))]
pub fn later(day: i64, ms: i64, add: i64) -> EpochAnswer
    ensures { LaterPromise day ms add result }
{
    match asked(day, ms, add, ADDED) {
        Ok(e) => {
            let e = e.later(add);
            EpochAnswer {
                refusal: 0,
                day: e.day,
                ms: e.ms,
            }
        }
        Err(r) => EpochAnswer {
            refusal: r.number(),
            day: 0,
            ms: 0,
        },
    }
}

// n and the five arguments at an epoch, where TAI-UTC is `tai` seconds.
#[tactic(auto, unfolding(crate::specs::Calls::arguments_outcome))]
pub fn arguments(day: i64, ms: i64, tai: i64) -> TicksAnswer
    ensures { ArgumentsPromise day ms tai result }
{
    match minutes_asked(day, ms, tai) {
        Ok(n) => {
            let a = arguments_at(n);
            TicksAnswer {
                refusal: 0,
                n,
                l: a.l,
                lp: a.lp,
                f: a.f,
                d: a.d,
                om: a.om,
            }
        }
        Err(r) => TicksAnswer {
            refusal: r.number(),
            n: 0,
            l: 0,
            lp: 0,
            f: 0,
            d: 0,
            om: 0,
        },
    }
}

// The tide in UT1 in nanoseconds at an epoch, where TAI-UTC is `tai` seconds.
#[tactic(auto, unfolding(crate::specs::Calls::tide_outcome, crate::specs::TideInUT1::tide_of))]
pub fn tide(day: i64, ms: i64, tai: i64) -> Number
    ensures { TidePromise day ms tai result }
{
    Number::from(minutes_asked(day, ms, tai).map(tide_at_minute))
}

// Whether the day and f are in their ranges.
fn angle_ok(day: i64, f: i64) -> bool
    ensures { result ≡ angle_inside day f }
{
    inside(MJD, day) && inside(MICROSECOND, f)
}

// E and ERA of a day and of f microseconds of it.
#[tactic(auto, unfolding(crate::specs::Calls::angle_outcome, crate::specs::Angle::era_of))]
pub fn angle_at(day: i64, f: i64) -> AngleAnswer
    ensures { AnglePromise day f result }
{
    if angle_ok(day, f) {
        let e = turn_of(day, f);
        return AngleAnswer {
            refusal: 0,
            e: e as i64,
            tick: rotation_ticks(e),
        };
    }
    AngleAnswer {
        refusal: Refusal::Range.number(),
        e: 0,
        tick: 0,
    }
}

// The rotation by a tick, as three rows of three, scaled by 2^30.
#[tactic(auto, unfolding(crate::specs::Rotation::rotation_of))]
pub fn rotate(tick: u32) -> [[i64; 3]; 3]
    ensures { RotatePromise tick result }
{
    let c = sine::cosine(tick);
    let s = sine::sine(tick);
    [[c, -s, 0], [s, c, 0], [0, 0, 1_073_741_824]]
}
