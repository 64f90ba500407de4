// Epochs, and minutes of TT from J2000.
ghost use Rattle.std.specs.Prelude.{◌≡◌, ◌^◌, ◌<◌};
ghost use Rattle.whole.specs.Whole.{∣◌∣};
ghost use Rattle.fields.specs.Ranges.{Holds, mjd, taiutc};
ghost use Rattle.earth.specs.Ranges.{added};
ghost use Rattle.earth.specs.Epoch.{later_of};
ghost use Rattle.earth.specs.Minutes.{minutes_of};

use fields::ranges::{MJD, Range};
use std::marker::Model;

// Milliseconds that a call may add.
pub(crate) const ADDED: Range = Range {
    low: 0,
    high: 14_742_000_000,
};

// The first day that a session file may have.
pub(crate) const FIRST_DAY: i64 = MJD.low;

// Milliseconds of a day.
const DAY: i64 = 86_400_000;

// An MJD day, and a UTC millisecond of it, which the type keeps in its range. The day's range stays with who asks for it: `later` may lead past its end.
#[derive(Clone, Copy)]
pub struct Epoch {
    pub day: i64,
    pub ms: i64,
}

impl Model for Epoch {
    ghost use Rattle.fields.specs.Ranges.{Holds, millisecond};
    ghost use Rattle.earth.specs.Instant.{Instant};

    ghost Value = { Instant };

    ghost view = { λ a. record { day = a.day; ms = a.ms } };

    ghost inverse = { λ e. record { day = e.day; ms = e.ms } };

    ghost invariant = { λ a. Holds millisecond a.ms };
}

impl Epoch {
    // The epoch that is `add` milliseconds later.
    #[tactic(auto, unfolding(crate::specs::Epoch::later_of))]
    pub fn later(self, add: i64) -> Epoch
        requires { Holds mjd self.day × Holds added add }
        ensures { result ≡ later_of self add }
    {
        let t = self.ms + add;
        Epoch {
            day: self.day + t / DAY,
            ms: t % DAY,
        }
    }

    // n, where TAI-UTC is `tai` seconds; TT is 32,184 ms ahead of TAI. It goes on as a plain number, whose bound each function on the way names: C and
    // the programs print it, `kept.n == n` compares it, and a type of its own would be put on and taken off at each of these.
    // Counted from 0h of the first day, nothing is below 0. From there to
    // J2000, noon of day 51,544, it is 10,227 days and a half, 14,727,600 minutes.
    #[tactic(auto, unfolding(crate::specs::Minutes::minutes_of))]
    pub fn minutes(self, tai: i64) -> i64
        requires { Holds mjd self.day × Holds taiutc tai }
        ensures { (result ≡ minutes_of self tai) × (∣ result ∣ < 2 ^ 26) }
    {
        ((self.day - FIRST_DAY) * DAY + self.ms + 32_184 + 1_000 * tai) / 60_000 - 14_727_600
    }
}
