// The rows of a text: the day of each, and where it stands.
ghost use Rattle.std.specs.Prelude.{◌≡◌, true, false, ◌+◌, ◌<◌, ◌≤◌, length, take, MatchResult};
ghost use Rattle.bulletin.specs.Rows.{has_day_rule, day_in_rule, row_at_rule};
ghost use Rattle.bulletin.specs.Reading.{all_dated};
ghost use Rattle.bulletin.specs.Code.{Listed, Stands};

use crate::form::whole_hundreds;
use crate::layout::MJD;
use text::lines::line_end;
use whole::divide::floor_div;

// Whether a row has a day.
#[tactic(auto, unfolding(crate::specs::Rows::has_day_rule))]
fn has_day(row: &[u8]) -> bool
    ensures { result ≡ has_day_rule row.now }
{
    MJD.holds_decimal(row) && whole_hundreds(MJD.value_in(row))
}

// The day of a row that has one.
#[tactic(auto, unfolding(crate::specs::Rows::has_day_rule, crate::specs::Rows::day_in_rule))]
fn day_in(row: &[u8]) -> i64
    requires { has_day_rule row.now ≡ true }
    ensures { result ≡ day_in_rule row.now }
{
    floor_div(MJD.value_in(row), 100)
}

// Lists the rows of a text: the day of each, and where it starts; behind the last start stands where a next row would. Answers how many
// rows there are, or the place of the first that has no day: the rows before it are listed. With no heap the caller lends the places, and
// days and starts lie apart, for `first_in`, which is public, searches a slice of days.
pub fn list_rows(text: &[u8], dates: &mut [i64], starts: &mut [usize]) -> Result<usize, usize>
    requires { (length text.now ≤ 65536) × (length dates.old ≡ 4096) × (length starts.old ≡ 4097) }
    ensures { MatchResult result (λ n. (n ≤ 4096) × (all_dated text.now ≡ true) × Listed text.now (take n dates.new) starts.new) (λ n. (n ≤ 4096) × (all_dated text.now ≡ false)) }
{
    let mut at: usize = 0;
    starts[0] = 0;
    for n in 0..dates.len() {
        let end = line_end(text, at);
        if end == text.len() {
            return Ok(n);
        }
        let row = &text[at..end];
        if !has_day(row) {
            return Err(n);
        }
        dates[n] = day_in(row);
        at = end + 1;
        starts[n + 1] = at;
    }
    Ok(dates.len())
}

// Row i of a text whose rows are listed.
pub fn row_at<'a>(text: &'a [u8], starts: &[usize], i: usize) -> &'a [u8]
    requires { Stands text.now starts.now i × (i + 1 < length starts.now) }
    ensures { result.now ≡ row_at_rule text.now i }
{
    &text[starts[i]..starts[i + 1] - 1]
}

// A text whose rows all have a day: the days, and where the rows stand.
#[derive(Clone, Copy)]
pub struct Rows<'a> {
    pub text: &'a [u8],
    pub dates: &'a [i64],
    pub starts: &'a [usize],
    pub ghost listed: { Listed text.now dates.now starts.now },
}
