// The session file: read, checked, and its records handed out. Document 01, 'Session file'.
#![tactic(auto)]

ghost use Rattle.std.specs.Prelude.{◌≡◌};
ghost use Rattle.session.specs.Records.{station_answer_in, source_answer_in, day_answer_in, pass_answer_in};
ghost use Rattle.session.specs.Promises.{CheckPromise, FaultPromise, StationPromise, SourcePromise, DayPromise, PassPromise};

mod faults;
pub mod records;

use faults::{order_fault, range_fault};
use fields::{Day, Pass, Source, Station};
use records::ask;
use sections::Session;
use sections::contents::Contents;
use sections::layouts::Order;
use sections::order::wrong_order;
use sections::ranges::wrong_section;
use whole::Refusal;
use whole::sign::number;

// These structs go to C: a refusal stands in each as its number, and zeros behind it.
#[repr(C)]
#[derive(Drop)]
pub struct Counts {
    pub refusal: i64,
    pub stations: i64,
    pub sources: i64,
    pub days: i64,
    pub passes: i64,
    pub day_kind: i64,
}

#[repr(C)]
#[derive(Drop)]
pub struct StationAnswer {
    pub refusal: i64,
    pub id: i64,
    pub x: i64,
    pub y: i64,
    pub z: i64,
}

#[repr(C)]
#[derive(Drop)]
pub struct SourceAnswer {
    pub refusal: i64,
    pub id: i64,
    pub right_ascension: i64,
    pub declination: i64,
}

#[repr(C)]
#[derive(Drop)]
pub struct DayAnswer {
    pub refusal: i64,
    pub mjd: i64,
    pub x: i64,
    pub y: i64,
    pub ut1_utc: i64,
    pub tai_utc: i64,
    pub mark: i64,
}

#[repr(C)]
#[derive(Drop)]
pub struct PassAnswer {
    pub refusal: i64,
    pub station1: i64,
    pub station2: i64,
    pub source: i64,
    pub mjd: i64,
    pub ms: i64,
    pub step: i64,
    pub samples: i64,
    pub tolerance: i64,
}

#[repr(C)]
#[derive(Drop)]
pub struct Place {
    pub number: i64,
    pub section: i64,
    pub record: i64,
    pub field: i64,
}

// What is asked for as C has it: 0 and the record, or the refusal and zeros.
impl From<Result<Station, Refusal>> for StationAnswer {
    ghost from_gives = { λ r a. a ≡ station_answer_in r };

    fn from(asked: Result<Station, Refusal>) -> StationAnswer {
        match asked {
            Ok(r) => StationAnswer {
                refusal: 0,
                id: r.id,
                x: r.x,
                y: r.y,
                z: r.z,
            },
            Err(n) => StationAnswer {
                refusal: n.number(),
                id: 0,
                x: 0,
                y: 0,
                z: 0,
            },
        }
    }
}

impl From<Result<Source, Refusal>> for SourceAnswer {
    ghost from_gives = { λ r a. a ≡ source_answer_in r };

    fn from(asked: Result<Source, Refusal>) -> SourceAnswer {
        match asked {
            Ok(r) => SourceAnswer {
                refusal: 0,
                id: r.id,
                right_ascension: r.right_ascension,
                declination: r.declination,
            },
            Err(n) => SourceAnswer {
                refusal: n.number(),
                id: 0,
                right_ascension: 0,
                declination: 0,
            },
        }
    }
}

impl From<Result<Day, Refusal>> for DayAnswer {
    ghost from_gives = { λ r a. a ≡ day_answer_in r };

    fn from(asked: Result<Day, Refusal>) -> DayAnswer {
        match asked {
            Ok(r) => DayAnswer {
                refusal: 0,
                mjd: r.mjd,
                x: r.x,
                y: r.y,
                ut1_utc: r.ut1_utc,
                tai_utc: r.tai_utc,
                mark: r.mark,
            },
            Err(n) => DayAnswer {
                refusal: n.number(),
                mjd: 0,
                x: 0,
                y: 0,
                ut1_utc: 0,
                tai_utc: 0,
                mark: 0,
            },
        }
    }
}

impl From<Result<Pass, Refusal>> for PassAnswer {
    ghost from_gives = { λ r a. a ≡ pass_answer_in r };

    fn from(asked: Result<Pass, Refusal>) -> PassAnswer {
        match asked {
            Ok(r) => PassAnswer {
                refusal: 0,
                station1: r.station1,
                station2: r.station2,
                source: r.source,
                mjd: r.mjd,
                ms: r.ms,
                step: r.step,
                samples: r.samples,
                tolerance: r.tolerance,
            },
            Err(n) => PassAnswer {
                refusal: n.number(),
                station1: 0,
                station2: 0,
                source: 0,
                mjd: 0,
                ms: 0,
                step: 0,
                samples: 0,
                tolerance: 0,
            },
        }
    }
}

// The refusal and zeros, or 0, the four counts, and the kind of the orientation records.
pub fn check(file: &[u8]) -> Counts
    ensures { CheckPromise file.now result }
{
    match Session::read(file) {
        Ok(s) => Counts {
            refusal: 0,
            stations: number(s.count(0)),
            sources: number(s.count(1)),
            days: number(s.count(2)),
            passes: number(s.count(3)),
            day_kind: number(s.contents().kind(2)),
        },
        Err(r) => Counts {
            refusal: r.number(),
            stations: 0,
            sources: 0,
            days: 0,
            passes: 0,
            day_kind: 0,
        },
    }
}

// The station with this index, counted from 0; 5 beyond the last.
#[tactic(auto, unfolding(crate::specs::Records::station_at_rule))]
pub fn station_at(file: &[u8], index: usize) -> StationAnswer
    ensures { StationPromise file.now index result }
{
    ask(file, 0, index).map(Station::from).into()
}

// The source with this index, counted from 0; 5 beyond the last.
#[tactic(auto, unfolding(crate::specs::Records::source_at_rule))]
pub fn source_at(file: &[u8], index: usize) -> SourceAnswer
    ensures { SourcePromise file.now index result }
{
    ask(file, 1, index).map(Source::from).into()
}

// The orientation record with this index, counted from 0; 5 beyond the last.
#[tactic(auto, unfolding(crate::specs::Records::day_at_rule))]
pub fn day_at(file: &[u8], index: usize) -> DayAnswer
    ensures { DayPromise file.now index result }
{
    ask(file, 2, index).map(Day::from).into()
}

// The pass with this index, counted from 0; 5 beyond the last.
#[tactic(auto, unfolding(crate::specs::Records::pass_at_rule))]
pub fn pass_at(file: &[u8], index: usize) -> PassAnswer
    ensures { PassPromise file.now index result }
{
    ask(file, 3, index).map(Pass::from).into()
}

// Where the number that `check` gives arises first; zeros for a file that is accepted.
pub fn fault(file: &[u8]) -> Place
    ensures { FaultPromise file.now result }
{
    let c = match Contents::read(file) {
        Ok(c) => c,
        Err(w) => {
            return Place {
                number: Refusal::Contents.number(),
                section: 0,
                record: 0,
                field: number(w),
            };
        }
    };
    let p = wrong_section(c);
    if p < 4 {
        return range_fault(c, p);
    }
    let q = wrong_order(c, Order::Rising);
    if q < 4 {
        return order_fault(c, q, Order::Rising, Refusal::Order);
    }
    let r = wrong_order(c, Order::Consecutive);
    if r < 4 {
        return order_fault(c, r, Order::Consecutive, Refusal::Days);
    }
    Place {
        number: 0,
        section: 0,
        record: 0,
        field: 0,
    }
}
