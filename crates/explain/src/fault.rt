// Refusals 2, 3 and 4, in words on standard error: the record and the field at which they arise, what was found there, and what is allowed. Which of them
// it is, `session::fault` says by a number in its C struct, `Place`, of which an enum would be made here to be asked for once.
ghost use Rattle.std.specs.Prelude.{◌<◌, ◌≤◌};

use crate::contents::{Entry, number_from};
use console::say::{say, say_decimal, say_natural};
use console::section::Section;
use sections::layouts::{Order, Shape, layout_in};
use session::Place;
use whole::sign::size;

// The records of a section, and the byte at which the one at fault starts.
#[derive(Drop)]
struct Record<'a> {
    file: &'a [u8],
    section: Section,
    layout: Shape,
    start: usize,
    ghost within: { start ≤ 5_000_000 },
}

impl Record<'_> {
    // Field k, and what was found there.
    fn say_value(&self, k: usize)
        requires { k < 8 }
    {
        say(b", ");
        self.section.say_field(k);
        say(b" is ");
        say_decimal(number_from(self.file, self.start + 8 * k));
        say(b", allowed ");
    }

    // The byte of field k.
    fn say_byte(&self, k: usize)
        requires { k < 8 }
    {
        say(b", byte ");
        say_natural((self.start + 8 * k) as u64);
    }

    // The field by which the record is named, where its section's are in order: an id or an MJD.
    fn say_name(&self) {
        let l = &self.layout;
        if l.order == Order::Any {
            return;
        }
        say(b" (");
        self.section.say_field(0);
        say(b" ");
        say_decimal(number_from(self.file, self.start));
        say(b")");
    }

    // Refusal 2, of field k.
    fn explain_range(&self, k: usize)
        requires { k < 8 }
    {
        let l = &self.layout;
        self.say_name();
        self.say_value(k);
        say_decimal(l.fields[k].low);
        say(b" to ");
        say_decimal(l.fields[k].high);
        self.say_byte(k);
        self.section.say_unit(k);
    }

    // Refusals 3 and 4, with record i before it, whose first field is given.
    fn explain_order(&self, number: i64, i: u64, before: u64)
        requires { before ≤ 1_000_000 }
    {
        let l = &self.layout;
        let high = size(l.fields[0].high);
        self.say_value(0);
        say_next(before, high, number);
        say(b" because record ");
        say_natural(i);
        say(b" has ");
        self.section.say_field(0);
        say(b" ");
        say_natural(before);
        if high <= before {
            say(b", which only the last record can have");
        }
        self.say_byte(0);
    }
}

// What may stand behind a first field: the numbers above it where they are to rise, the next one where they are to be consecutive.
fn say_next(before: u64, high: u64, number: i64)
    requires { before ≤ 1_000_000 }
{
    if high <= before {
        say(b"none");
        return;
    }
    say_natural(before + 1);
    if number == 3 {
        say(b" to ");
        say_natural(high);
    }
}

// Which section and which record.
fn say_record(kind: i64, i: i64) {
    say(b"section ");
    say_decimal(kind);
    say(b" (");
    Section::from(kind).say_name();
    say(b"), record ");
    say_decimal(i);
}

// What refusals 2, 3 and 4 mean.
pub(crate) fn explain_fault(file: &[u8], p: Place) {
    let entry = Entry::of_kind(file, p.section);
    let layout = layout_in(entry.place, size(p.section) as usize);
    let numbers = layout.size;
    let i = size(p.record) as usize;
    let record = Record {
        file,
        section: Section::from(p.section),
        layout,
        start: entry.record_byte(numbers, i),
    };
    say_record(p.section, p.record);
    if p.number == 2 {
        record.explain_range(size(p.field).min(7) as usize);
    } else {
        let i = i.saturating_sub(1);
        let before = size(number_from(file, entry.record_byte(numbers, i)));
        record.explain_order(p.number, i as u64, before.min(1_000_000));
    }
    say(b"; records count from 0");
}
