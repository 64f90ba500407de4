// Orientation records from the rows of finals2000A: rows on standard input; the first day, the number of days and the TAI-UTC of each day as words.
#![tactic(auto)]

ghost use Rattle.std.specs.Prelude.{◌≡◌, length, ◌≤◌};
ghost use Rattle.bulletin.specs.Reading.{days_outcome};
ghost use Rattle.days.specs.Text.{days_text_rule};
ghost use Rattle.days.specs.Promises.{RunPromise};

mod explain;
mod faults;
mod printed;
mod words;

use console::ending::{Ending, answered, lost_any};
use console::input::read_input;
use console::say::say;
use explain::explain;
use printed::days_text;
use std::io::Read;
use words::{Asked, read_words, say_usage};

// Writes a text to standard output; the rows and the words say which text that is. Answers whether all of it was written.
fn write_days(text: &[u8], rows: &[u8], a: Asked) -> bool
    requires { text.now ≡ days_text_rule rows.now a.first a.count a.tai.now }
{
    io::write_all(1, text)
}

// That not all of the text was written.
fn say_unwritten(whole: bool) {
    if !whole {
        say(b"standard output could not be written; not all of its lines were written whole\n");
    }
}

// The refusal of an answer, and whether its text was written whole: each says something whatever the other is.
#[derive(Drop)]
struct Written {
    refusal: i64,
    whole: bool,
}

// Prints the records of the days, or the refusal, from a room for the text.
fn print_days(rows: &[u8], a: Asked, room: &mut [u8]) -> Written
    requires { 8064 ≤ length room.old }
    ensures { result.refusal ≡ (days_outcome rows.now a.entry.first a.entry.count a.entry.tai.now).refusal }
{
    let t = days_text(rows, a, room);
    let whole = write_days(&room[..t.length], rows, a);
    Written {
        refusal: t.refusal,
        whole,
    }
}

// How many bytes were read to the start of a buffer, the refusal that they have, whether a read or a write failed, and the status. `RunPromise` is of this
// record; that of crate program is of one of its own, so each crate keeps one.
#[derive(Drop)]
struct Ran {
    bytes: usize,
    refusal: i64,
    lost: bool,
    status: u64,
}

// Reads the rows to the buffer, prints what they give, says what was refused and why, and tells the status to descriptor 3. The buffer has a byte more
// than the rows may have, so that a longer input is seen to be too long.
fn run<R: Read>(stdin: &mut R, buffer: &mut [u8], a: Asked) -> Ran
    ensures { RunPromise result buffer.new a.entry.first a.entry.count a.entry.tai.now }
{
    let input = read_input(stdin, buffer);
    let n = input.bytes;
    let failed = input.failed;
    input.say_unread();
    let mut room = [0u8; 8064];
    let p = print_days(&buffer[..n], a, &mut room);
    say_unwritten(p.whole);
    explain(&buffer[..n], a, p.refusal);
    let lost = lost_any(failed, p.whole);
    let ending = Ending::of(lost, answered(p.refusal));
    ending.tell();
    Ran {
        bytes: n,
        refusal: p.refusal,
        lost,
        status: ending.status(),
    }
}

// That the words are wrong, and which.
fn refuse_words(wrong: Option<usize>) {
    say_usage(wrong);
    Ending::Misused.tell();
}

// Of more than 67 words the first are kept: for 65 values of TAI-UTC or more no records are given, and the refusal is the same.
fn main(rt: HostRuntime) {
    let mut numbers = [0i64; 67];
    let n = match read_words(&rt, &mut numbers) {
        Ok(n) => n,
        Err(i) => return refuse_words(Some(i)),
    };
    if n < 2 {
        return refuse_words(None);
    }
    let mut stdin = rt.stdin();
    let mut buffer = [0u8; 65537];
    let a = Asked {
        first: numbers[0],
        count: numbers[1],
        tai: &numbers[2..n],
    };
    run(&mut stdin, &mut buffer, a);
}
