// What the delays take from an accepted file: the records that three ids name, those of a day and of the next, and the earth at an epoch.
// That the file covers a day is asked by a clause: a day that had a file of its own beside it would have to be shown to have the file of what is kept.
ghost use Rattle.std.specs.Prelude.{◌≡◌, true, ◌<◌, ◌≤◌, ltb, pos, ◌+ℤ◌, IfOk};
ghost use Rattle.whole.specs.Whole.{∣◌∣};
ghost use Rattle.whole.specs.Refusals.{number_in, unless};
ghost use Rattle.sections.specs.File.{count_of_rule};
ghost use Rattle.session.specs.Records.{day_by};
ghost use Rattle.wave.specs.Keeping.{reduced_of};
ghost use Rattle.delay.specs.Calls.{all_there_rule};
ghost use Rattle.delay.specs.Keeping.{places_by, places_there, sight_in_rule};
ghost use Rattle.delay.specs.Sessions.{covers, earth_in_rule, has_id};

use earth::Epoch;
use earth::rows::tide_at_minute;
use fields::Day;
use sections::Session;
use session::records::{day_of, day_place, place_by, source_of, station_of};
use wave::values::{Earth, earth_at, minutes_by, reduced};
use wave::{Sight, sight_of};
use whole::Refusal;

// Where the records of two stations and of a source stand, each in its section.
#[derive(Clone, Copy)]
pub struct Places {
    pub first: usize,
    pub second: usize,
    pub source: usize,
}

// The records of a day of the file and of the next, both with UT1R.
#[derive(Clone, Copy)]
pub struct Days<'a> {
    pub session: Session<'a>,
    pub day: i64,
    pub today: Day,
    pub next: Day,
    pub ghost today_is: { today ≡ reduced_of (day_by session.file.now day) },
    pub ghost next_is: { next ≡ reduced_of (day_by session.file.now (day +ℤ pos 1)) },
}

// Whether place p has a record i.
fn there(s: Session<'_>, p: usize, i: usize) -> bool
    requires { p < 4 }
    ensures { result ≡ ltb i (count_of_rule s.entry.file.now p) }
{
    i < s.count(p)
}

fn all_there(s: Session<'_>, n: Places) -> bool
    ensures { result ≡ places_there s.entry.file.now n }
{
    there(s, 0, n.first) && there(s, 0, n.second) && there(s, 1, n.source)
}

// Where the records of two stations and of a source stand, by their ids; refused where one of them is not there.
pub fn named_by(
    s: Session<'_>,
    station1: i64,
    station2: i64,
    source: i64,
) -> Result<Places, Refusal>
    ensures number { number_in result ≡ unless (all_there_rule s.entry.file.now station1 station2 source) 5 }
    ensures places { IfOk result (λ n. n ≡ places_by s.entry.file.now station1 station2 source) }
{
    let n = Places {
        first: place_by(s, 0, station1),
        second: place_by(s, 0, station2),
        source: place_by(s, 1, source),
    };
    if !all_there(s, n) {
        return Err(Refusal::Absent);
    }
    Ok(n)
}

// The sight from the two stations to the source.
pub fn sight_in(s: Session<'_>, n: Places) -> Sight
    requires { places_there s.file.now n ≡ true }
    ensures { result ≡ sight_in_rule s.entry.file.now n }
{
    let a = station_of(s, n.first);
    let b = station_of(s, n.second);
    let r = source_of(s, n.source);
    sight_of(a, b, r)
}

fn has_day(s: Session<'_>, day: i64) -> bool
    ensures { result ≡ has_id s.entry.file.now 2 day }
{
    there(s, 2, day_place(s, day))
}

// Whether the file has the records of a day and of the next.
pub fn covers(s: Session<'_>, day: i64) -> bool
    requires { ∣ day ∣ ≤ 1_000_000 }
    ensures { result ≡ covers s.entry.file.now day }
{
    has_day(s, day) && has_day(s, day + 1)
}

// The record of a day that the file has, with UT1R.
pub fn day_in(s: Session<'_>, day: i64) -> Day
    requires { has_id s.file.now 2 day ≡ true }
    ensures { result ≡ reduced_of (day_by s.entry.file.now day) }
{
    reduced(day_of(s, day_place(s, day)))
}

impl<'a> Days<'a> {
    // Those of a day that the file covers, of which that of the day itself is there already.
    fn with(session: Session<'a>, day: i64, today: Day) -> Days<'a>
        requires { (covers session.file.now day ≡ true) × (today ≡ reduced_of (day_by session.file.now day)) }
        ensures { (result.session.file.now ≡ session.entry.file.now) × (result.day ≡ day) }
    {
        Days {
            session,
            day,
            today,
            next: day_in(session, day + 1),
        }
    }

    // Those of a day that the file covers.
    pub fn from(session: Session<'a>, day: i64) -> Days<'a>
        requires { covers session.file.now day ≡ true }
        ensures { (result.session.file.now ≡ session.entry.file.now) × (result.day ≡ day) }
    {
        Days::with(session, day, day_in(session, day))
    }

    // The record of this day: where it is that of the next day here, it is taken over.
    fn today_at(self, day: i64) -> Day
        requires { covers self.session.file.now day ≡ true }
        ensures { result ≡ reduced_of (day_by self.entry.session.file.now day) }
    {
        if self.day == day - 1 {
            return self.next;
        }
        day_in(self.session, day)
    }

    // Those of this day: where it is another, the next is read anew.
    pub fn at(self, day: i64) -> Days<'a>
        requires { covers self.session.file.now day ≡ true }
        ensures { (result.session.file.now ≡ self.entry.session.file.now) × (result.day ≡ day) }
    {
        if self.day == day {
            return self;
        }
        Days::with(self.session, day, self.today_at(day))
    }
}

// The earth at an epoch; refused where the file does not cover its day.
pub fn earth_in(s: Session<'_>, e: Epoch) -> Result<Earth, Refusal>
    requires { ∣ e.day ∣ ≤ 1_000_000 }
    ensures number { number_in result ≡ unless (covers s.entry.file.now e.day) 6 }
    ensures earth { IfOk result (λ r. r ≡ earth_in_rule s.entry.file.now e) }
{
    if !covers(s, e.day) {
        return Err(Refusal::Uncovered);
    }
    let d = Days::from(s, e.day);
    let tide = tide_at_minute(minutes_by(d.today, e));
    Ok(earth_at(d.today, d.next, e, tide))
}
