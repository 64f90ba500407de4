// The order of ids and of days: the first pair of neighbours that do not keep it.
// A search gives the count where nothing fails, as `first_not` says it: an Option would be compared with a count all the same.
// Byte, size and count go one by one to the inner loops, as `step_by` takes them: a struct of them would be made for one call.
ghost use Rattle.std.specs.Prelude.{◌≡◌, ◌+◌, ◌-◌, ◌*◌, ◌<◌, ◌≤◌, length};
ghost use Rattle.whole.specs.Each.{first_not};
ghost use Rattle.sections.specs.Code.{order_number, step_by};
ghost use Rattle.sections.specs.File.{count_of_rule, step_right_rule, order_right_rule};
ghost use Rattle.sections.specs.Layouts.{places};

use crate::contents::Contents;
use crate::layouts::Order;
use text::words::number_at;
use whole::below::first_failing;

fn step_right(s: &[u8], at: usize, size: usize, o: Order, i: usize) -> bool
    requires { (at + 8 * (size * (i + 1)) + 8 ≤ length s.now) × (i < 256) × (size ≤ 8) }
    ensures { result ≡ step_by s.now at size (order_number o) i }
{
    o.allows(
        number_at(s, at + 8 * (size * i)),
        number_at(s, at + 8 * (size * (i + 1))),
    )
}

// The first of n steps between records of size numbers from byte at on that does not keep the order o, or n.
fn first_step(s: &[u8], at: usize, n: usize, size: usize, o: Order) -> usize
    requires { (at + 8 * (size * n) + 8 ≤ length s.now) × (n ≤ 256) × (size ≤ 8) }
    ensures { result ≡ first_not n (step_by s.now at size (order_number o)) }
{
    first_failing(n, |i| step_right(s, at, size, o, i))
}

// The first record of place p behind which the next does not keep the order o, or the number of the last.
pub fn wrong_step(c: Contents<'_>, o: Order, p: usize) -> usize
    requires { p < 4 }
    ensures { result ≡ first_not (count_of_rule c.entry.file.now p - 1) (step_right_rule places c.entry.file.now (order_number o) p) }
{
    first_step(c.file, c.first_byte(p), c.count(p) - 1, c.layout(p).size, o)
}

#[tactic(auto, unfolding(crate::specs::File::order_right_rule))]
fn order_right(c: Contents<'_>, o: Order, p: usize) -> bool
    requires { p < 4 }
    ensures { result ≡ order_right_rule places c.entry.file.now (order_number o) p }
{
    c.layout(p).order != o || wrong_step(c, o, p) == c.count(p) - 1
}

// The first place that is to keep the order o and does not, or 4.
pub fn wrong_order(c: Contents<'_>, o: Order) -> usize
    ensures { result ≡ first_not 4 (order_right_rule places c.entry.file.now (order_number o)) }
{
    first_failing(4, |p| order_right(c, o, p))
}
