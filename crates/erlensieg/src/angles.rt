// Ticks, epochs, and Earth rotation.
ghost use Rattle.sine.specs.Promises.{SinePromise, CosinePromise};
ghost use Rattle.earth.specs.Promises.{LaterPromise, ArgumentsPromise, TidePromise, AnglePromise};
ghost use Rattle.std.specs.Prelude.{◌≡◌};
ghost use Rattle.erlensieg.specs.Nine.{nine_of};
ghost use Rattle.erlensieg.specs.Promises.{NinePromise};

use earth::{AngleAnswer, EpochAnswer, TicksAnswer};
use whole::Number;

// Three rows of three, row after row.
#[repr(C)]
#[derive(Drop)]
pub struct Rotation {
    pub xx: i64,
    pub xy: i64,
    pub xz: i64,
    pub yx: i64,
    pub yy: i64,
    pub yz: i64,
    pub zx: i64,
    pub zy: i64,
    pub zz: i64,
}

// A struct for C cannot hold an array of arrays by value in every language that calls it, so the entries have names.
impl From<[[i64; 3]; 3]> for Rotation {
    ghost from_gives = { λ rows r. r ≡ nine_of rows };

    #[tactic(auto, unfolding(crate::specs::Nine::nine_of))]
    fn from(rows: [[i64; 3]; 3]) -> Rotation {
        let [x, y, z] = rows;
        Rotation {
            xx: x[0],
            xy: x[1],
            xz: x[2],
            yx: y[0],
            yy: y[1],
            yz: y[2],
            zx: z[0],
            zy: z[1],
            zz: z[2],
        }
    }
}

#[unsafe(no_mangle)]
pub extern "C" fn fringe_sine(tick: u32) -> i64
    ensures { SinePromise tick result }
{
    sine::sine(tick)
}

#[unsafe(no_mangle)]
pub extern "C" fn fringe_cosine(tick: u32) -> i64
    ensures { CosinePromise tick result }
{
    sine::cosine(tick)
}

#[unsafe(no_mangle)]
pub extern "C" fn fringe_later(day: i64, ms: i64, add: i64) -> EpochAnswer
    ensures { LaterPromise day ms add result }
{
    earth::later(day, ms, add)
}

#[unsafe(no_mangle)]
pub extern "C" fn fringe_arguments(day: i64, ms: i64, tai: i64) -> TicksAnswer
    ensures { ArgumentsPromise day ms tai result }
{
    earth::arguments(day, ms, tai)
}

#[unsafe(no_mangle)]
pub extern "C" fn fringe_tide(day: i64, ms: i64, tai: i64) -> Number
    ensures { TidePromise day ms tai result }
{
    earth::tide(day, ms, tai)
}

#[unsafe(no_mangle)]
pub extern "C" fn fringe_angle_at(day: i64, f: i64) -> AngleAnswer
    ensures { AnglePromise day f result }
{
    earth::angle_at(day, f)
}

#[unsafe(no_mangle)]
pub extern "C" fn fringe_rotate(tick: u32) -> Rotation
    ensures { NinePromise tick result }
{
    earth::rotate(tick).into()
}
