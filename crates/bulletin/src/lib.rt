// Orientation days from the rows of finals2000A, the text that the IERS publishes, and such rows from days. Document 02, L3.
#![tactic(auto)]

mod form;
pub mod layout;
pub mod listing;
mod putting;
mod records;
pub mod taking;

ghost use Rattle.std.specs.Prelude.{◌≤◌, length, ◌≡◌, pos, replicate};
ghost use Rattle.whole.specs.Answers.{answer_in};
ghost use Rattle.bulletin.specs.Promises.{DaysPromise, RowsPromise};
ghost use Rattle.bulletin.specs.Code.{days_by, days_in};

pub use form::{is_minus, past_minus};
use listing::{Rows, list_rows};
use putting::{list_right, put_rows};
pub use records::DAY_COUNT;
use records::{records_of, values_in_range};
use taking::{days_there, taken_filled};
use whole::{Number, Refusal};

// A refusal, and the records of days, six numbers each; zeros behind the last, and throughout where refused. C reads it, so it stays a
// number beside an array.
#[repr(C)]
#[derive(Drop)]
pub struct Days {
    pub refusal: i64,
    pub days: [i64; 384],
}

impl From<Result<[i64; 384], Refusal>> for Days {
    ghost from_gives = { λ r d. d ≡ days_in r };

    fn from(answer: Result<[i64; 384], Refusal>) -> Days {
        match answer {
            Ok(days) => Days { refusal: 0, days },
            Err(r) => Days {
                refusal: r.number(),
                days: [0; 384],
            },
        }
    }
}

// The orientation records of `count` days from the first on, of the first row with each day, with the TAI-UTC that is given for each. C gives the three one by
// one; `DaysPromise`, `asked` and `taken_filled_rule` take them so, and all below do.
pub fn days_from_rows(text: &[u8], first: i64, count: i64, tai: &[i64]) -> Days
    ensures { DaysPromise text.now first count tai.now result }
{
    let mut days = [0i64; 384];
    match days_of_text(text, first, count, tai, &mut days) {
        Ok(()) => Days { refusal: 0, days },
        Err(r) => Days::from(Err(r)),
    }
}

// The same: puts the records into the places that are lent, which are zeros, or says why they are refused. The steps hand up no array, for each would keep a
// copy of it on the stack.
fn days_of_text(
    text: &[u8],
    first: i64,
    count: i64,
    tai: &[i64],
    days: &mut [i64; 384],
) -> Result<(), Refusal>
    requires { days.old ≡ replicate 384 (pos 0) }
    ensures { DaysPromise text.now first count tai.now (days_by result days.new) }
{
    if 65_536 < text.len() {
        return Err(Refusal::Contents);
    }
    let mut dates = [0i64; 4096];
    let mut starts = [0usize; 4097];
    let Ok(n) = list_rows(text, &mut dates, &mut starts) else {
        return Err(Refusal::Row);
    };
    let rows = Rows {
        text,
        dates: &dates[..n],
        starts: &starts,
    };
    days_among(rows, first, count, tai, days)
}

// The same for a text whose rows all have a day.
fn days_among(
    rows: Rows,
    first: i64,
    count: i64,
    tai: &[i64],
    days: &mut [i64; 384],
) -> Result<(), Refusal>
    requires { (length rows.text.now ≤ 65536) × (days.old ≡ replicate 384 (pos 0)) }
    ensures { DaysPromise rows.entry.text.now first count tai.now (days_by result days.new) }
{
    if !taken_filled(rows, first, count) {
        return Err(Refusal::Row);
    }
    if !days_there(rows.dates, first, count) {
        return Err(Refusal::NoRow);
    }
    if !values_in_range(first, count, tai) {
        return Err(Refusal::Range);
    }
    records_of(rows, first, tai, days)
}

// Writes a row for each record, 186 bytes with its line feed, to the start of the room; answers how many bytes that is.
pub fn rows_from_days(days: &[i64], room: &mut [u8]) -> Number
    ensures { RowsPromise days.now room.old result room.new }
{
    write_rows(days, room).into()
}

// The same, as the number of bytes or why nothing is written.
fn write_rows(days: &[i64], room: &mut [u8]) -> Result<i64, Refusal>
    ensures { RowsPromise days.now room.old (answer_in result) room.new }
{
    if !list_right(days) {
        return Err(Refusal::Range);
    }
    let bytes = 186 * (days.len() / 6);
    if room.len() < bytes {
        return Err(Refusal::Room);
    }
    put_rows(days, room);
    Ok(bytes as i64)
}
