// Rows written from records that stand in a list one behind the other, six numbers each.
ghost use Rattle.std.specs.Prelude.{◌≡◌, true, ◌+◌, ◌*◌, ◌≤◌, length};
ghost use Rattle.whole.specs.Each.{all_below};
ghost use Rattle.text.specs.Bytes.{pasted};
ghost use Rattle.bulletin.specs.Writing.{row_for_rule, records_in, record_at_rule, can_stand_rule, list_right_rule, rows_text};

use crate::form::whole_hundreds;
use crate::layout::{MJD, UT1, X, Y};
use crate::records::{DAY_COUNT, in_ranges};
use fields::Day;
use fields::ranges::inside;
use text::bytes::copy;
use whole::below::all_pass;
use whole::divide::floor_div;

// Record i of the list. Written out: `From<[i64; 8]>` of crate fields takes a whole row, and this list has six numbers a record.
fn record_at(numbers: &[i64], i: usize) -> Day
    requires { 6 * i + 6 ≤ length numbers.now }
    ensures { result ≡ record_at_rule numbers.now i }
{
    let at = 6 * i;
    Day {
        mjd: numbers[at],
        x: numbers[at + 1],
        y: numbers[at + 2],
        ut1_utc: numbers[at + 3],
        tai_utc: numbers[at + 4],
        mark: numbers[at + 5],
    }
}

// Whether a record can stand in a row.
#[tactic(auto, unfolding(crate::specs::Writing::can_stand_rule))]
fn can_stand(d: Day) -> bool
    ensures { result ≡ can_stand_rule d }
{
    in_ranges(d) && whole_hundreds(d.ut1_utc) && d.mark == 1
}

// Whether each record of the list can.
fn all_can_stand(numbers: &[i64], records: usize) -> bool
    requires { 6 * records ≤ length numbers.now }
    ensures { result ≡ all_below records (λ i. can_stand_rule (record_at_rule numbers.now i)) }
{
    all_pass(records, |i| can_stand(record_at(numbers, i)))
}

// Whether the list has a right number of whole records, each of which can stand in a row.
#[tactic(auto, unfolding(crate::specs::Writing::list_right_rule))]
pub fn list_right(numbers: &[i64]) -> bool
    ensures { result ≡ list_right_rule numbers.now }
{
    let records = numbers.len() / 6;
    6 * records == numbers.len()
        && inside(DAY_COUNT, records as i64)
        && all_can_stand(numbers, records)
}

// The row of a record, with its line feed.
fn row_for(d: Day) -> [u8; 186]
    requires { can_stand_rule d ≡ true }
    ensures { result ≡ row_for_rule d }
{
    let mut row = [32u8; 186];
    row[185] = 10;
    MJD.put_in(&mut row, 100 * d.mjd);
    X.put_in(&mut row, d.x);
    Y.put_in(&mut row, d.y);
    UT1.put_in(&mut row, floor_div(d.ut1_utc, 100));
    row
}

// The rows of all records, from the start of the room.
pub fn put_rows(numbers: &[i64], room: &mut [u8])
    requires { (list_right_rule numbers.now ≡ true) × (186 * records_in numbers.now ≤ length room.old) }
    ensures { room.new ≡ pasted room.old 0 (rows_text numbers.now) }
{
    for i in 0..numbers.len() / 6 {
        copy(room, 186 * i, &row_for(record_at(numbers, i)));
    }
}
