// The places at which the refusals 2, 3 and 4 arise first. A search gives the count where nothing is found, as `first_not` does.
ghost use Rattle.std.specs.Prelude.{◌≡◌, ◌<◌, ◌≤◌};
ghost use Rattle.whole.specs.Each.{first_not};
ghost use Rattle.whole.specs.Refusals.{number_of};
ghost use Rattle.sections.specs.Code.{order_number};
ghost use Rattle.sections.specs.File.{count_of_rule, size_of, field_right, record_right};
ghost use Rattle.sections.specs.Layouts.{places};
ghost use Rattle.session.specs.Fault.{range_fault_rule, order_fault_rule};

use crate::Place;
use sections::contents::Contents;
use sections::layouts::Order;
use sections::order::wrong_step;
use sections::ranges::{first_outside, wrong_record};
use whole::Refusal;
use whole::sign::number;

// The first field of record i of place p that is out of its range, or the number of fields.
fn wrong_field(c: Contents<'_>, p: usize, i: usize) -> usize
    requires { (p < 4) × (i < count_of_rule c.file.now p) }
    ensures { (result ≡ first_not (size_of places c.entry.file.now p) (field_right places c.entry.file.now p i)) × (result ≤ 8) }
{
    first_outside(c.file, c.record_byte(p, i), &c.layout(p))
}

// The first field out of its range in place p, which has one.
pub fn range_fault(c: Contents<'_>, p: usize) -> Place
    requires { (p < 4) × (first_not (count_of_rule c.file.now p) (record_right places c.file.now p) < count_of_rule c.file.now p) }
    ensures { result ≡ range_fault_rule c.entry.file.now p }
{
    let i = wrong_record(c, p);
    let k = wrong_field(c, p, i);
    Place {
        number: Refusal::Range.number(),
        section: number(c.kind(p)),
        record: number(i),
        field: number(k),
    }
}

// The later record of the first pair in place p that does not keep the order o.
pub fn order_fault(c: Contents<'_>, p: usize, o: Order, refusal: Refusal) -> Place
    requires { p < 4 }
    ensures { result ≡ order_fault_rule c.entry.file.now p (order_number o) (number_of refusal) }
{
    let i = wrong_step(c, o, p);
    Place {
        number: refusal.number(),
        section: number(c.kind(p)),
        record: number(i + 1),
        field: 0,
    }
}
