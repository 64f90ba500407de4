// The records of a session and the ranges of their fields, apart from any file. Document 01, 'Session file'.
#![tactic(auto)]

pub mod ranges;

ghost use Rattle.std.specs.Prelude.{◌≡◌};
ghost use Rattle.fields.specs.Records.{station_from_rule, source_from_rule, day_from_rule, pass_from_rule};

#[derive(Clone, Copy)]
pub struct Station {
    pub id: i64,
    pub x: i64,
    pub y: i64,
    pub z: i64,
}

#[derive(Clone, Copy)]
pub struct Source {
    pub id: i64,
    pub right_ascension: i64,
    pub declination: i64,
}

#[derive(Clone, Copy)]
pub struct Day {
    pub mjd: i64,
    pub x: i64,
    pub y: i64,
    pub ut1_utc: i64,
    pub tai_utc: i64,
    pub mark: i64,
}

#[derive(Clone, Copy)]
pub struct Pass {
    pub station1: i64,
    pub station2: i64,
    pub source: i64,
    pub mjd: i64,
    pub ms: i64,
    pub step: i64,
    pub samples: i64,
    pub tolerance: i64,
}

// A record of each kind, from a row of numbers.
impl From<[i64; 8]> for Station {
    ghost from_gives = { λ row r. r ≡ station_from_rule row };

    #[tactic(auto, unfolding(crate::specs::Records::station_from_rule))]
    fn from(row: [i64; 8]) -> Station {
        Station {
            id: row[0],
            x: row[1],
            y: row[2],
            z: row[3],
        }
    }
}

impl From<[i64; 8]> for Source {
    ghost from_gives = { λ row r. r ≡ source_from_rule row };

    #[tactic(auto, unfolding(crate::specs::Records::source_from_rule))]
    fn from(row: [i64; 8]) -> Source {
        Source {
            id: row[0],
            right_ascension: row[1],
            declination: row[2],
        }
    }
}

impl From<[i64; 8]> for Day {
    ghost from_gives = { λ row r. r ≡ day_from_rule row };

    #[tactic(auto, unfolding(crate::specs::Records::day_from_rule))]
    fn from(row: [i64; 8]) -> Day {
        Day {
            mjd: row[0],
            x: row[1],
            y: row[2],
            ut1_utc: row[3],
            tai_utc: row[4],
            mark: row[5],
        }
    }
}

impl From<[i64; 8]> for Pass {
    ghost from_gives = { λ row r. r ≡ pass_from_rule row };

    #[tactic(auto, unfolding(crate::specs::Records::pass_from_rule))]
    fn from(row: [i64; 8]) -> Pass {
        Pass {
            station1: row[0],
            station2: row[1],
            source: row[2],
            mjd: row[3],
            ms: row[4],
            step: row[5],
            samples: row[6],
            tolerance: row[7],
        }
    }
}
