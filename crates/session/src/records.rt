// The records of a file that is accepted: by their place in their section, and where one with an id or an MJD stands.
// What is looked for and is not there has the count for its place: `place_by_rule` says so.
ghost use Rattle.std.specs.Prelude.{◌≡◌, ◌+◌, ◌*◌, ◌<◌, ◌≤◌, length};
ghost use Rattle.whole.specs.Each.{first_not};
ghost use Rattle.sections.specs.Code.{other_by};
ghost use Rattle.sections.specs.File.{count_of_rule};
ghost use Rattle.session.specs.Records.{station_of_rule, source_of, day_of_rule, pass_of_rule, place_by_rule, asked_row, asked_in};

use fields::{Day, Pass, Source, Station};
use sections::Session;
use text::words::number_at;
use whole::Refusal;
use whole::below::first_failing;

// Four that differ in a place and a record's type: one line each, where a trait would take a law and four impls.
#[tactic(auto, unfolding(crate::specs::Records::station_of_rule))]
pub fn station_of(s: Session<'_>, i: usize) -> Station
    requires { i < count_of_rule s.file.now 0 }
    ensures { result ≡ station_of_rule s.entry.file.now i }
{
    Station::from(s.record(0, i))
}

#[tactic(auto, unfolding(crate::specs::Records::source_of))]
pub fn source_of(s: Session<'_>, i: usize) -> Source
    requires { i < count_of_rule s.file.now 1 }
    ensures { result ≡ source_of s.entry.file.now i }
{
    Source::from(s.record(1, i))
}

#[tactic(auto, unfolding(crate::specs::Records::day_of_rule))]
pub fn day_of(s: Session<'_>, i: usize) -> Day
    requires { i < count_of_rule s.file.now 2 }
    ensures { result ≡ day_of_rule s.entry.file.now i }
{
    Day::from(s.record(2, i))
}

#[tactic(auto, unfolding(crate::specs::Records::pass_of_rule))]
pub fn pass_of(s: Session<'_>, i: usize) -> Pass
    requires { i < count_of_rule s.file.now 3 }
    ensures { result ≡ pass_of_rule s.entry.file.now i }
{
    Pass::from(s.record(3, i))
}

// The first of n records of size numbers from byte at on whose first number is z, or n.
fn first_with(s: &[u8], at: usize, n: usize, size: usize, z: i64) -> usize
    requires { (at + 8 * (size * n) ≤ length s.now) × (0 < size) }
    ensures { result ≡ first_not n (other_by s.now at size z) }
{
    first_failing(n, |i| number_at(s, at + 8 * (size * i)) != z)
}

// The first record of place p whose first field is z, or the number of its records. Ids rise, but a record is bytes of a file and no item of a slice, so
// `binary_search` has nothing to search; there are 256 at most.
pub fn place_by(s: Session<'_>, p: usize, z: i64) -> usize
    requires { p < 4 }
    ensures { result ≡ place_by_rule s.entry.file.now p z }
{
    let c = s.contents();
    first_with(s.file, c.first_byte(p), c.count(p), c.layout(p).size, z)
}

// The record of the day with this MJD, or the number of days.
pub fn day_place(s: Session<'_>, mjd: i64) -> usize
    ensures { result ≡ place_by_rule s.entry.file.now 2 mjd }
{
    let n = s.count(2);
    let first = number_at(s.file, s.record_byte(2, 0));
    if mjd < first {
        return n;
    }
    let i = (mjd - first) as usize;
    if i < n {
        return i;
    }
    n
}

// Record i of place p, in any file: the file's own refusal, then 5 where place p has no such record.
pub fn ask(s: &[u8], p: usize, i: usize) -> Result<[i64; 8], Refusal>
    requires { p < 4 }
    ensures { asked_in result ≡ asked_row s.now p i }
{
    let s = Session::read(s)?;
    if s.count(p) <= i {
        return Err(Refusal::Absent);
    }
    Ok(s.record(p, i))
}
