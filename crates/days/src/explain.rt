// What a refusal means, in words on standard error: what was found, what is allowed, and where. Rows and columns count from 1. A text and the days of its first
// rows stay two parameters: `bulletin::Rows` asks that each row has a day, and here one may have none.
use crate::faults::{Field, first_fault, first_lacking, first_out};
use crate::words::Asked;
use bulletin::DAY_COUNT;
use bulletin::layout::{Columns, MJD};
use bulletin::listing::list_rows;
use bulletin::taking::first_in;
use console::say::{say, say_decimal, say_natural};
use console::section::Section;
use fields::ranges::{MJD as MJD_RANGE, Range, inside};
use text::lines::line_of;
use whole::sign::number;

// The name of a field, as of a session file.
fn say_name(field: Field) {
    Section::Days.say_field(field.place());
}

// A row by its place, which counts from 0.
fn say_row(place: usize) {
    say(b"row ");
    if place < 65_536 {
        say_natural(place as u64 + 1);
    }
}

fn say_columns(c: Columns) {
    say(b"columns ");
    say_natural(c.first as u64);
    say(b"-");
    say_natural(c.last as u64);
}

fn say_from_1() {
    say(b"; rows and columns count from 1");
}

// ---- refusal 10

// A byte of a row; `?` for one that a terminal may take for a command.
fn say_byte(b: u8) {
    if (32..=126).contains(&b) {
        say(&[b]);
    } else {
        say(b"?");
    }
}

// The bytes of a row in some columns, or as far as it goes.
fn say_bytes(row: &[u8], c: Columns) {
    for b in row.iter().take(c.last).skip(c.first - 1) {
        say_byte(*b);
    }
}

// What should stand in the columns of a field, where they hold something else.
fn say_form(row: &[u8], field: Field, c: Columns) {
    if field == Field::Mjd && MJD.holds_decimal(row) {
        say(b"expected a whole day, with .00 behind it");
        return;
    }
    say(b"expected a decimal with ");
    say_natural(c.decimals as u64);
    say(b" digits behind the point, the last in column ");
    say_natural(c.last as u64);
}

fn explain_row(text: &[u8], place: usize, field: Field) {
    let row = line_of(text, place);
    let c = field.columns();
    say_row(place);
    if row.len() < c.last {
        say(b" has ");
        say_natural(row.len() as u64);
        say(b" bytes, and ");
        say_name(field);
        say(b" stands in ");
        say_columns(c);
        say_from_1();
        return;
    }
    say(b", ");
    say_columns(c);
    say(b", ");
    say_name(field);
    say(b" is '");
    say_bytes(row, c);
    say(b"', ");
    say_form(row, field, c);
    say_from_1();
}

// ---- refusal 11

fn explain_lacking(days: &[i64], first: i64) {
    say(b"no row has MJD ");
    say_decimal(first_lacking(days, first));
    if days.len() == 0 {
        say(b"; there is no row, and a line feed ends each");
        return;
    }
    say(b"; the rows go from MJD ");
    say_decimal(days[0]);
    say(b" (row 1) to MJD ");
    say_decimal(days[days.len() - 1]);
    say(b" (row ");
    say_natural(days.len() as u64);
    say(b")");
}

// ---- refusal 2

// What was found, and what is allowed.
fn say_out(z: i64, r: Range) {
    say(b" is ");
    say_decimal(z);
    say(b", allowed ");
    say_decimal(r.low);
    say(b" to ");
    say_decimal(r.high);
}

// The number of values of TAI-UTC; of many only the first are counted.
fn explain_values(values: usize, count: i64) {
    say(b"there are ");
    if 64 < values {
        say(b"more than 64");
    } else {
        say_natural(values as u64);
    }
    say(b" values of TAI-UTC, expected ");
    say_decimal(count);
    say(b", one for each day");
}

// The field of a day's record that is out of its range, if one is. Answers whether one was.
fn explain_record(text: &[u8], days: &[i64], d: i64, tai_utc: i64) -> bool {
    let place = first_in(days, d);
    let row = line_of(text, place);
    let Some(field) = first_out(row, d, tai_utc) else {
        return false;
    };
    say(b"day ");
    say_decimal(d);
    say(b", ");
    say_name(field);
    say_out(field.value(row, d, tai_utc), field.range());
    Section::Days.say_unit(field.place());
    if field != Field::TaiUtc {
        say(b"; ");
        say_row(place);
        say(b", ");
        say_columns(field.columns());
        say_from_1();
    }
    true
}

// The first record with a field out of its range. The day is counted beside the values, and may not pass the greatest number.
fn explain_records(text: &[u8], days: &[i64], a: Asked) {
    let mut d = a.first;
    for t in a.tai {
        if explain_record(text, days, d, *t) {
            return;
        }
        d = d.saturating_add(1);
    }
}

fn explain_value(text: &[u8], days: &[i64], a: Asked) {
    if !inside(MJD_RANGE, a.first) {
        say(b"first day");
        say_out(a.first, MJD_RANGE);
        return;
    }
    if !inside(DAY_COUNT, a.count) {
        say(b"number of days");
        say_out(a.count, DAY_COUNT);
        return;
    }
    if number(a.tai.len()) != a.count {
        explain_values(a.tai.len(), a.count);
        return;
    }
    explain_records(text, days, a);
}

// ---- all

// What a refusal other than 1 means; the days of the rows before the first that has none are lent. The refusal is a number here, as
// `Days` gives it to C.
fn explain_rows(text: &[u8], days: &[i64], a: Asked, n: i64) {
    match n {
        10 => {
            let f = first_fault(text, days, a.first, a.count);
            explain_row(text, f.row, f.field);
        }
        11 => explain_lacking(days, a.first),
        _ => explain_value(text, days, a),
    }
}

// What a refusal means, if there is one.
pub(crate) fn explain(text: &[u8], a: Asked, n: i64) {
    if n < 1 {
        return;
    }
    say(b"refused ");
    say_decimal(n);
    say(b": ");
    if 65_536 < text.len() {
        say(b"the rows have more than 65536 bytes, allowed 65536\n");
        return;
    }
    let mut days = [0i64; 4096];
    let mut starts = [0usize; 4097];
    let (Ok(m) | Err(m)) = list_rows(text, &mut days, &mut starts);
    explain_rows(text, &days[..m], a, n);
    say(b"\n");
}
