// The ranges of the fields: the first field, record and place that is wrong; where none is, the count, as in the file of the order.
ghost use Rattle.std.specs.Prelude.{◌≡◌, ◌+◌, ◌*◌, ◌<◌, ◌≤◌, length};
ghost use Rattle.whole.specs.Each.{first_not};
ghost use Rattle.sections.specs.Code.{inside_by, fields_by};
ghost use Rattle.sections.specs.File.{count_of_rule, record_right, section_right_rule};
ghost use Rattle.sections.specs.Layouts.{places};

use crate::contents::Contents;
use crate::layouts::Shape;
use fields::ranges::{Range, inside};
use text::words::number_at;
use whole::below::first_failing;

// The first of so many numbers from byte at on that is out of its range, or how many they are.
fn first_out(s: &[u8], at: usize, size: usize, fields: &[Range; 8]) -> usize
    requires { (at + 8 * size ≤ length s.now) × (size ≤ 8) }
    ensures { result ≡ first_not size (inside_by s.now at fields.now) }
{
    first_failing(size, |k| inside(fields[k], number_at(s, at + 8 * k)))
}

// The first number of the record at byte at that is out of its range, or how many numbers it has.
pub fn first_outside(s: &[u8], at: usize, l: &Shape) -> usize
    requires { (at + 8 * l.now.size ≤ length s.now) × (l.now.size ≤ 8) }
    ensures { result ≡ first_not l.now.size (inside_by s.now at l.now.fields) }
{
    let fields = l.fields;
    first_out(s, at, l.size, &fields)
}

// The first of n records of so many numbers from byte at on with a number out of its range, or n.
#[tactic(auto, using(whole::proofs::Each::all_first))]
fn first_record(s: &[u8], at: usize, n: usize, size: usize, fields: &[Range; 8]) -> usize
    requires { (at + 8 * (size * n) ≤ length s.now) × (size ≤ 8) }
    ensures { result ≡ first_not n (fields_by s.now at size fields.now) }
{
    first_failing(n, |i| {
        first_out(s, at + 8 * (size * i), size, fields) == size
    })
}

// The first record of place p with a field out of its range, or the number of its records. The ranges have a place of their own, so that the rest of the layout
// takes none on the stack.
pub fn wrong_record(c: Contents<'_>, p: usize) -> usize
    requires { p < 4 }
    ensures { result ≡ first_not (count_of_rule c.entry.file.now p) (record_right places c.entry.file.now p) }
{
    let l = c.layout(p);
    let fields = l.fields;
    first_record(c.file, c.first_byte(p), c.count(p), l.size, &fields)
}

fn section_right(c: Contents<'_>, p: usize) -> bool
    requires { p < 4 }
    ensures { result ≡ section_right_rule places c.entry.file.now p }
{
    wrong_record(c, p) == c.count(p)
}

// The first place with a field out of its range, or 4.
pub fn wrong_section(c: Contents<'_>) -> usize
    ensures { result ≡ first_not 4 (section_right_rule places c.entry.file.now) }
{
    first_failing(4, |p| section_right(c, p))
}
