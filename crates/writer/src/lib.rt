// The session file, written. Document 01, 'Session file'.
#![tactic(auto)]

ghost use Rattle.std.specs.Prelude.{◌≡◌, true, ◌+◌, ◌*◌, ◌≤◌, length, pos};
ghost use Rattle.whole.specs.Answers.{answer_in};
ghost use Rattle.whole.specs.Refusals.{number_in};
ghost use Rattle.text.specs.Bytes.{pasted, words_of, bytes_of_all};
ghost use Rattle.text.specs.Put.{Put};
ghost use Rattle.sections.specs.Layouts.{places};
ghost use Rattle.writer.specs.Writing.{kinds_with_rule, lists_right_rule, file_of, write_refusal};
ghost use Rattle.writer.specs.Lists.{of_lists};
ghost use Rattle.writer.specs.Promises.{WritePromise, WriteAsPromise};

mod lists;
mod marks;
pub mod theorems;

use lists::{Lists, contents_for, lists_right, others_right};
use marks::{put_unmarked, unmarked};
use sections::Session;
use text::bytes::{put_numbers, put_words};
use whole::sign::number;
use whole::{Number, Refusal};

// The kinds that the four places are to have, each by its name: `WriteAsPromise` speaks of this struct.
#[derive(Clone, Copy)]
pub struct Kinds {
    pub first: usize,
    pub second: usize,
    pub third: usize,
    pub fourth: usize,
}

// The numbers of one list, from at on; the place behind them.
fn put_list(d: &mut [u8], at: usize, zs: &[i64]) -> usize
    requires { at + 8 * length zs.now ≤ length d.old }
    ensures { (result ≡ at + 8 * length zs.now) × (d.new ≡ pasted d.old at (bytes_of_all (words_of zs.now))) }
{
    put_numbers(d, at, zs);
    at + 8 * zs.len()
}

// The file of the four lists, at the start of d; its length.
fn encode(d: &mut [u8], l: Lists<'_>) -> usize
    requires { (lists_right_rule places l.kinds (of_lists l) ≡ true) × (length (file_of places l.kinds (of_lists l)) ≤ length d.old) }
    ensures { Put d.old 0 (file_of places l.entry.kinds (of_lists l.entry)) d.new result }
{
    let h = contents_for(l);
    put_words(d, 0, &h);
    let s2 = put_list(d, 104, l.stations);
    let s3 = put_list(d, s2, l.sources);
    let s4 = put_list(d, s3, l.days);
    put_list(d, s4, l.passes)
}

// Whether a call of these lists for a room of so many bytes is refused.
// The file is made apart, in the most bytes that a file can have since no heap is used, and judged by the reader's own tests.
fn judged(l: Lists<'_>, room: usize) -> Result<(), Refusal>
    ensures { number_in result ≡ write_refusal places l.entry.kinds (of_lists l.entry) room }
{
    if !lists_right(l) {
        return Err(Refusal::Contents);
    }
    let mut file = [0u8; 15_464];
    let n = encode(&mut file, l);
    let _ = Session::read(&file[..n])?;
    if room < n {
        return Err(Refusal::Room);
    }
    Ok(())
}

// The file of the lists, written to the start of room, and its length: a refused call stores nothing there.
fn written(l: Lists<'_>, room: &mut [u8]) -> Result<i64, Refusal>
    ensures { WriteAsPromise l.entry.kinds l.entry.stations.now l.entry.sources.now l.entry.days.now l.entry.passes.now room.old (answer_in result) room.new }
{
    judged(l, room.len())?;
    Ok(number(encode(room, l)))
}

// The file of four lists, each place with the kind that it is to have, written to the start of room: a refused call stores nothing there.
pub fn write_as(
    k: Kinds,
    stations: &[i64],
    sources: &[i64],
    days: &[i64],
    passes: &[i64],
    room: &mut [u8],
) -> Number
    ensures { WriteAsPromise k stations.now sources.now days.now passes.now room.old result room.new }
{
    let l = Lists {
        kinds: k,
        stations,
        sources,
        days,
        passes,
    };
    written(l, room).into()
}

// The kinds of the four places, by that of the days.
fn kinds_with(third: usize) -> Kinds
    ensures { result ≡ kinds_with_rule third }
{
    Kinds {
        first: 1,
        second: 2,
        third,
        fourth: 4,
    }
}

// The file with days of kind 3, which has no marks: five numbers of each record of the marked days stand in it.
fn write_unmarked(marked: Lists<'_>, room: &mut [u8]) -> Result<i64, Refusal>
    requires { marked.kinds ≡ kinds_with_rule 5 }
    ensures { WritePromise (pos 3) marked.entry.stations.now marked.entry.sources.now marked.entry.days.now marked.entry.passes.now room.old (answer_in result) room.new }
{
    if !lists_right(marked) {
        return Err(Refusal::Contents);
    }
    if !unmarked(marked.days) {
        return Err(Refusal::Range);
    }
    // Fixed memory: five numbers of each of 64 records at most.
    let mut five = [0i64; 320];
    let n = put_unmarked(&mut five, marked.days);
    let bare = Lists {
        kinds: kinds_with(3),
        days: &five[..n],
        ..marked
    };
    written(bare, room)
}

// The session file of four lists of numbers, record after record, written to the start of room; its days have the kind 3 or 5. C gives the kind as a number and
// the lists one by one, and `WritePromise` speaks of each.
pub fn write(
    day_kind: i64,
    stations: &[i64],
    sources: &[i64],
    days: &[i64],
    passes: &[i64],
    room: &mut [u8],
) -> Number
    ensures { WritePromise day_kind stations.now sources.now days.now passes.now room.old result room.new }
{
    let l = Lists {
        kinds: kinds_with(5),
        stations,
        sources,
        days,
        passes,
    };
    if day_kind == 3 {
        return write_unmarked(l, room).into();
    }
    if day_kind == 5 {
        return written(l, room).into();
    }
    if !others_right(l) {
        return Number::from(Err(Refusal::Contents));
    }
    Number::from(Err(Refusal::Range))
}
