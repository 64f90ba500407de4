// What an epoch's two orientation records give at the epoch. Document 01, 'Day values', and document 02, L1 and L4.
ghost use Rattle.std.specs.Prelude.{◌≡◌, ◌^◌, ◌<◌, ◌≤◌, ◌+ℤ◌};
ghost use Rattle.whole.specs.Whole.{∣◌∣};
ghost use Rattle.fields.specs.Ranges.{Holds, mjd, taiutc, millisecond};
ghost use Rattle.fields.specs.Records.{InDay};
ghost use Rattle.earth.specs.Angle.{era_of};
ghost use Rattle.earth.specs.Minutes.{minutes_of};
ghost use Rattle.earth.specs.TideInUT1.{tide_of};
ghost use Rattle.wave.specs.DayValues.{ut1r_of, leap_of, ut1_line, f_of, earth_of};
ghost use Rattle.wave.specs.Bounds.{InRecord};
ghost use Rattle.wave.specs.Keeping.{minute_of, reduced_of};

use earth::Epoch;
use earth::rows::tide_at_minute;
use earth::turn::turn_of;
use fields::Day;
use std::marker::Model;
use whole::divide::line_at;
use whole::long::rotation_ticks;

// As used at an epoch: the pole, UT1-UTC with the tide, and ERA.
#[derive(Clone, Copy)]
pub struct Earth {
    pub x: i64,
    pub y: i64,
    pub ut1_used: i64,
    pub tick: u32,
}

impl Model for Earth {
    ghost use Rattle.wave.specs.Values.{InEarth, Oriented};

    ghost Value = { Oriented };

    ghost view = { λ a. record { x = a.x; y = a.y; ut1_used = a.ut1_used; tick = a.tick } };

    ghost inverse = { λ e. record { x = e.x; y = e.y; ut1_used = e.ut1_used; tick = e.tick } };

    ghost invariant = { λ a. InEarth (record { x = a.x; y = a.y; ut1_used = a.ut1_used; tick = a.tick }) };
}

// The tide of one minute of TT, kept from one epoch to the next: it changes once a minute.
#[derive(Clone, Copy)]
pub struct Minute {
    pub n: i64,
    pub tide: i64,
}

impl Model for Minute {
    ghost use Rattle.wave.specs.Values.{Tide, TrueMinute};

    ghost Value = { Tide };

    ghost view = { λ a. record { n = a.n; tide = a.tide } };

    ghost inverse = { λ m. record { n = m.n; tide = m.tide } };

    ghost invariant = { λ a. TrueMinute (record { n = a.n; tide = a.tide }) };
}

// The tide at n, taken from what is kept where that is of the same minute.
pub fn minute_at(kept: Minute, n: i64) -> Minute
    requires { ∣ n ∣ < 2 ^ 26 }
    ensures { result ≡ minute_of n }
{
    if kept.n == n {
        return kept;
    }
    Minute {
        n,
        tide: tide_at_minute(n),
    }
}

// The minute of TT of an epoch, by the TAI-UTC of its day's record.
pub fn minutes_by(r0: Day, e: Epoch) -> i64
    requires { Holds taiutc r0.tai_utc × Holds mjd e.day }
    ensures { (result ≡ minutes_of e r0.tai_utc) × (∣ result ∣ < 2 ^ 26) }
{
    e.minutes(r0.tai_utc)
}

// The UT1R that a record gives: one that is marked 1 holds the tide at 0h UTC of its own day, by its own TAI-UTC.
fn ut1r(r: Day) -> i64
    requires { InDay r }
    ensures { result ≡ ut1r_of r }
{
    if r.mark != 1 {
        return r.ut1_utc;
    }
    let midnight = Epoch { day: r.mjd, ms: 0 };
    r.ut1_utc - tide_at_minute(minutes_by(r, midnight))
}

// The record marked 0 that gives the same UT1R: the tide of a day is taken away once, and not at every epoch. It stays a `Day`, the record of the
// file, and what `InRecord` says of it stands in the clauses of the three functions below: a type of its own would hold the same fields and be
// taken apart at each of them.
pub fn reduced(r: Day) -> Day
    requires { InDay r }
    ensures { (result ≡ reduced_of r) × InRecord result }
{
    Day {
        ut1_utc: ut1r(r),
        mark: 0,
        ..r
    }
}

// What UT1-UTC steps by from one record to the next because TAI-UTC does, in nanoseconds.
fn leap(r0: Day, r1: Day) -> i64
    requires { InRecord r0 × InRecord r1 }
    ensures { result ≡ leap_of r0 r1 }
{
    (r1.tai_utc - r0.tai_utc) * 1000000000
}

// UT1-UTC used: the line from one day's record to the next, without the leap between them, and the tide.
fn ut1_used(r0: Day, r1: Day, ms: i64, tide: i64) -> i64
    requires { InRecord r0 × InRecord r1 × Holds millisecond ms × (∣ tide ∣ ≤ 2723000) }
    ensures { result ≡ ut1_line r0 r1 ms +ℤ tide }
{
    line_at(r0.ut1_utc, r1.ut1_utc - leap(r0, r1), ms) + tide
}

// ERA at an epoch, where this UT1-UTC is used. The bias in f keeps the dividend from going below 0, where a quotient is no floor.
fn era_at(e: Epoch, ut1: i64) -> u32
    requires { Holds mjd e.day × (∣ ut1 ∣ ≤ 99905446000) }
    ensures { result ≡ era_of e.day (f_of e.ms ut1) }
{
    let f = 1000 * e.ms + (ut1 + 100000000000) / 1000 - 100000000;
    rotation_ticks(turn_of(e.day, f))
}

// The earth at an epoch, from the records of its day and of the next, both with UT1R, and from the tide of its minute.
pub fn earth_at(r0: Day, r1: Day, e: Epoch, tide: i64) -> Earth
    requires in_record { InRecord r0 × InRecord r1 × Holds mjd e.day }
    requires tide_value { tide ≡ tide_of e r0.tai_utc }
    ensures { result ≡ earth_of r0 r1 e }
{
    let ms = e.ms;
    let x = line_at(r0.x, r1.x, ms);
    let y = line_at(r0.y, r1.y, ms);
    let ut1_used = ut1_used(r0, r1, ms, tide);
    let tick = era_at(e, ut1_used);
    Earth {
        x,
        y,
        ut1_used,
        tick,
    }
}
