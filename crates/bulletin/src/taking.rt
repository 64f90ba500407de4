// Which rows are taken for the days asked for. Of the rows the days are lent, in the order of the text.
ghost use Rattle.std.specs.Prelude.{◌≡◌, ◌<◌, ◌≤◌, ltb, pos, ◌+ℤ◌, length};
ghost use Rattle.whole.specs.Each.{all_below, implies};
ghost use Rattle.whole.specs.Whole.{pos_part, ∣◌∣};
ghost use Rattle.bulletin.specs.Code.{Near};
ghost use Rattle.bulletin.specs.Rows.{first_in_rule, is_filled_rule, row_at_rule};
ghost use Rattle.bulletin.specs.Reading.{asked, is_taken, taken_filled_rule};

use crate::layout::{UT1, X, Y};
use crate::listing::{Rows, row_at};
use whole::below::{all_pass, first_failing};
use whole::sign::size;

// The place of the first d; the length where there is none, as `first_in_rule` says it.
pub fn first_in(dates: &[i64], d: i64) -> usize
    ensures { result ≡ first_in_rule dates.now d }
{
    first_failing(dates.len(), |i| dates[i] != d)
}

// Whether a day is among `count` days from the first on. No sum here passes 64 bits: a day of a row is far from both ends.
pub fn is_asked(d: i64, first: i64, count: i64) -> bool
    requires { ∣ d ∣ ≤ 100_000 }
    ensures { result ≡ asked first count d }
{
    if d < first {
        return false;
    }
    if count <= 0 {
        return false;
    }
    if first < 0 {
        return d < first + count;
    }
    d - first < count
}

// Whether x, y and UT1-UTC of a row are decimals.
#[tactic(auto, unfolding(crate::specs::Rows::is_filled_rule))]
fn is_filled(row: &[u8]) -> bool
    ensures { result ≡ is_filled_rule row.now }
{
    X.holds_decimal(row) && Y.holds_decimal(row) && UT1.holds_decimal(row)
}

// Whether row i is filled, if it is taken.
fn filled_if_taken(rows: Rows, first: i64, count: i64, i: usize) -> bool
    requires { i < length rows.dates.now }
    ensures { result ≡ implies (is_taken rows.entry.text.now first count i) (is_filled_rule (row_at_rule rows.entry.text.now i)) }
{
    let d = rows.dates[i];
    if !is_asked(d, first, count) {
        return true;
    }
    if first_in(rows.dates, d) != i {
        return true;
    }
    is_filled(row_at(rows.text, rows.starts, i))
}

// Whether each row that is taken is filled.
pub fn taken_filled(rows: Rows, first: i64, count: i64) -> bool
    ensures { result ≡ taken_filled_rule rows.entry.text.now first count }
{
    all_pass(rows.dates.len(), |i| filled_if_taken(rows, first, count, i))
}

// A count, or 0 where it is negative.
fn above_zero(count: i64) -> usize
    ensures { result ≡ pos_part count }
{
    size(count.max(0)) as usize
}

// Whether each day asked for is among the dates. The first that is not ends the search, so that no day is looked for far behind the last of them;
// `first + k` fits a word only while the days before it are there, so this is no `all_pass`.
pub fn days_there(dates: &[i64], first: i64, count: i64) -> bool
    requires { Near dates.now }
    ensures { result ≡ all_below (pos_part count) (λ k. ltb (first_in_rule dates.now (first +ℤ pos k)) (length dates.now)) }
{
    let mut d = first;
    for _k in 0..above_zero(count) {
        if first_in(dates, d) == dates.len() {
            return false;
        }
        d += 1;
    }
    true
}
