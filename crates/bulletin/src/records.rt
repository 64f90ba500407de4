// The records of the days asked for, each of which has a row.
ghost use Rattle.std.specs.Prelude.{◌≡◌, true, ◌&&◌, ◌*◌, ◌<◌, ◌≤◌, pos, ◌+ℤ◌, length, replicate};
ghost use Rattle.std.proofs.lemmas.List.Edits.{sets};
ghost use Rattle.whole.specs.Whole.{∣◌∣};
ghost use Rattle.whole.specs.Ranges.{eq_z};
ghost use Rattle.fields.specs.Ranges.{inside, mjd};
ghost use Rattle.bulletin.specs.Rows.{row_at_rule, is_filled_rule, first_in_rule};
ghost use Rattle.bulletin.specs.Reading.{day_count, in_ranges_rule, numbers_of_rule, record_for};
ghost use Rattle.bulletin.specs.Code.{Ready, days_by, given_records};

use crate::layout::{UT1, X, Y};
use crate::listing::{Rows, row_at};
use crate::taking::first_in;
use fields::Day;
use fields::ranges::{MJD, POLE, Range, TAI_UTC, UT1_UTC, inside};
use whole::Refusal;
use whole::sign::{number, size};

// How many days a list may have.
pub const DAY_COUNT: Range = Range { low: 2, high: 64 };

// Whether each field of a record but the mark is in its range. Each has its own `if`: with `&&` two goals of the check stay open.
#[tactic(auto, unfolding(crate::specs::Reading::in_ranges_rule))]
pub fn in_ranges(d: Day) -> bool
    ensures { result ≡ in_ranges_rule d }
{
    if !inside(MJD, d.mjd) {
        return false;
    }
    if !inside(POLE, d.x) {
        return false;
    }
    if !inside(POLE, d.y) {
        return false;
    }
    if !inside(UT1_UTC, d.ut1_utc) {
        return false;
    }
    inside(TAI_UTC, d.tai_utc)
}

// Whether the first day and the count are in their ranges, and each day has its TAI-UTC.
pub fn values_in_range(first: i64, count: i64, tai: &[i64]) -> bool
    ensures { result ≡ (inside mjd first && (inside day_count count && eq_z (pos (length tai.now)) count)) }
{
    inside(MJD, first) && inside(DAY_COUNT, count) && tai.len() == size(count) as usize
}

// Day k of those asked for.
fn day_at(first: i64, k: usize) -> i64
    requires { (∣ first ∣ ≤ 100_000) × (k < 64) }
    ensures { result ≡ first +ℤ pos k }
{
    first + number(k)
}

// The record of day d, by the row that is taken for it: it holds full UT1.
fn record_of(rows: Rows, d: i64, tai: i64) -> Day
    requires { (first_in_rule rows.dates.now d < length rows.dates.now) × (is_filled_rule (row_at_rule rows.text.now (first_in_rule rows.dates.now d)) ≡ true) }
    ensures { result ≡ record_for rows.entry.text.now d tai }
{
    let row = row_at(rows.text, rows.starts, first_in(rows.dates, d));
    Day {
        mjd: d,
        x: X.value_in(row),
        y: Y.value_in(row),
        ut1_utc: 100 * UT1.value_in(row),
        tai_utc: tai,
        mark: 1,
    }
}

// Puts the numbers of record k into their places. Nobody else makes a row of a `Day`, so there is no `From` for it.
fn put_day(days: &mut [i64; 384], k: usize, d: Day)
    requires { k < 64 }
    ensures { days.new ≡ sets days.old (6 * k) (numbers_of_rule d) }
{
    let numbers = [d.mjd, d.x, d.y, d.ut1_utc, d.tai_utc, d.mark];
    days[6 * k..6 * k + 6].copy_from_slice(&numbers);
}

// Puts the records into the places that are lent, as many as there are of TAI-UTC; refused where a field of one is out of its range.
pub fn records_of(rows: Rows, first: i64, tai: &[i64], days: &mut [i64; 384]) -> Result<(), Refusal>
    requires { Ready rows.text.now first (pos (length tai.now)) × (length tai.now ≤ 64) × (∣ first ∣ ≤ 100_000) × (days.old ≡ replicate 384 (pos 0)) }
    ensures { days_by result days.new ≡ given_records rows.entry.text.now first tai.now }
{
    for k in 0..tai.len() {
        let d = record_of(rows, day_at(first, k), tai[k]);
        if !in_ranges(d) {
            return Err(Refusal::Range);
        }
        put_day(days, k, d);
    }
    Ok(())
}
