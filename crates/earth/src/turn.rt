// The rotation angle, of a day and of f microseconds of it.
ghost use Rattle.std.specs.Prelude.{◌≡◌};
ghost use Rattle.fields.specs.Ranges.{Holds, mjd};
ghost use Rattle.earth.specs.Ranges.{microsecond};
ghost use Rattle.earth.specs.Angle.{fm_of, e_of};

use crate::time::FIRST_DAY;
use fields::ranges::Range;

// The microseconds f by which the angle may be asked for.
pub(crate) const MICROSECOND: Range = Range {
    low: -100_000_000,
    high: 86_500_000_000,
};

// fm. Counted from 100 s before 0h, which is the least f, nothing is below 0.
fn whole_ms(f: i64) -> i64
    requires { Holds microsecond f }
    ensures { result ≡ fm_of f }
{
    (f + 100_000_000) / 1_000 - 100_000
}

// A turn, in the unit of E.
const TURN: u64 = 100_000_000_000_000_000;

// E on the first day, 108 s before 0h: document 01's 27,768,836,730,832,276 less what 10,227 days give, and less what 108 s give by the two
// floors, 10·12,500,000,000,000 and 342,226,488,750, modulo a turn.
const AT_START: u64 = 27_683_252_762_116_830;

// E, counted from there. Nothing is below 0, which the check of each cast proves, and both floors move by a whole number.
pub fn turn_of(day: i64, f: i64) -> u64
    requires { Holds mjd day × Holds microsecond f }
    ensures { result ≡ e_of day f }
{
    let days = (day - FIRST_DAY) as u64;
    let us = (f + 108_000_000) as u64;
    let ms = (whole_ms(f) + 108_000) as u64;
    let sum = AT_START
        + 273_781_191_135_448 * days
        + 10 * (3_125_000 * us / 27)
        + 1_368_905_955 * ms / 432;
    sum % TURN
}
