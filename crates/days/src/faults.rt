// The first fault of rows, or of what they give.
ghost use Rattle.std.specs.Prelude.{◌<◌, ◌≤◌};

use bulletin::layout::{Columns, MJD, UT1, X, Y};
use bulletin::taking::{first_in, is_asked};
use fields::ranges::{MJD as MJD_RANGE, POLE, Range, TAI_UTC, UT1_UTC, inside};
use text::lines::line_of;
use whole::sign::size;

// A field of a record, in the record's order. The mark is never at fault.
#[derive(Clone, Copy, Debug, PartialEq, Eq)]
pub(crate) enum Field {
    Mjd,
    X,
    Y,
    Ut1Utc,
    TaiUtc,
}

const FIELDS: [Field; 5] = [Field::Mjd, Field::X, Field::Y, Field::Ut1Utc, Field::TaiUtc];

impl Field {
    // Its place in a record, which counts from 0.
    pub(crate) fn place(self) -> usize
        ensures { result < 5 }
    {
        match self {
            Field::Mjd => 0,
            Field::X => 1,
            Field::Y => 2,
            Field::Ut1Utc => 3,
            Field::TaiUtc => 4,
        }
    }

    // Its columns. TAI-UTC has none and nobody asks for them, so that those of UT1-UTC stand here, and no Option is opened at each use.
    pub(crate) fn columns(self) -> Columns
        ensures { result.last ≤ 68 }
    {
        match self {
            Field::Mjd => MJD,
            Field::X => X,
            Field::Y => Y,
            Field::Ut1Utc | Field::TaiUtc => UT1,
        }
    }

    pub(crate) fn range(self) -> Range {
        match self {
            Field::Mjd => MJD_RANGE,
            Field::X | Field::Y => POLE,
            Field::Ut1Utc => UT1_UTC,
            Field::TaiUtc => TAI_UTC,
        }
    }

    // Its value in the record that a row gives, with its day and its TAI-UTC.
    pub(crate) fn value(self, row: &[u8], d: i64, tai_utc: i64) -> i64 {
        match self {
            Field::Mjd => d,
            Field::X => decimal_in(X, row),
            Field::Y => decimal_in(Y, row),
            Field::Ut1Utc => decimal_in(UT1, row).saturating_mul(100),
            Field::TaiUtc => tai_utc,
        }
    }
}

// The decimal in some columns of a row, in units of its last digit. No Option: a row without one has refusal 10, which comes first, so the 0 is never said.
fn decimal_in(c: Columns, row: &[u8]) -> i64 {
    if c.holds_decimal(row) {
        c.value_in(row)
    } else {
        0
    }
}

// ---- refusal 10

// The first of x, y and UT1-UTC that is no decimal in a row.
fn unfilled(row: &[u8]) -> Option<Field> {
    for field in [Field::X, Field::Y, Field::Ut1Utc] {
        if !field.columns().holds_decimal(row) {
            return Some(field);
        }
    }
    None
}

// Whether row i, whose day is d, is taken: the day is asked for, and no row before has it. The days of the rows are lent.
fn is_taken(days: &[i64], d: i64, i: usize, first: i64, count: i64) -> bool {
    size(d) <= 100_000 && is_asked(d, first, count) && first_in(days, d) == i
}

// A row, and the field of it that is at fault.
#[derive(Clone, Copy)]
pub(crate) struct Fault {
    pub row: usize,
    pub field: Field,
}

// The first row at fault: one that is taken and not filled, or the one behind the rows whose days are lent, which has no day.
pub(crate) fn first_fault(text: &[u8], days: &[i64], first: i64, count: i64) -> Fault {
    for row in 0..days.len() {
        if is_taken(days, days[row], row, first, count) {
            if let Some(field) = unfilled(line_of(text, row)) {
                return Fault { row, field };
            }
        }
    }
    Fault {
        row: days.len(),
        field: Field::Mjd,
    }
}

// ---- refusal 11

// The first day from d on that is not among the days of the rows. The day is counted beside the places, and may not pass the greatest number.
pub(crate) fn first_lacking(days: &[i64], first: i64) -> i64 {
    let mut d = first;
    for _ in 0..days.len() {
        if !days.contains(&d) {
            return d;
        }
        d = d.saturating_add(1);
    }
    d
}

// ---- refusal 2

// The first field of the record that a row gives, with its day and its TAI-UTC, that is out of its range.
pub(crate) fn first_out(row: &[u8], d: i64, tai_utc: i64) -> Option<Field> {
    for field in FIELDS {
        if !inside(field.range(), field.value(row, d, tai_utc)) {
            return Some(field);
        }
    }
    None
}
