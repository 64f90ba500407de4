// The program of document 01: a session file on standard input, its tracks on standard output.
#![tactic(auto)]

ghost use Rattle.std.specs.Prelude.{◌≡◌, ◌+◌, ◌<◌, ◌≤◌, length, pos};
ghost use Rattle.whole.specs.Refusals.{number_of};
ghost use Rattle.session.specs.Records.{check_of};
ghost use Rattle.text.specs.Table.{refused_line};
ghost use Rattle.lines.specs.Text.{lent_outcome, pass_text_rule, pass_texts, session_text};
ghost use Rattle.program.specs.Endings.{all_answered_rule};
ghost use Rattle.explain.specs.Numbers.{Numbers};
ghost use Rattle.program.specs.Promises.{RunPromise};

mod ending;

use console::ending::{Ending, lost_any};
use console::input::read_input;
use ending::{passes_answered, say_line_lost, say_passes_lost};
use explain::{explain_file, explain_passes};
use lines::pass_text;
use sections::Session;
use std::io::Read;
use text::table::put_refused;
use whole::Refusal;

// Writes the whole text of a file to standard output; the file says which text that is. Answers whether all of it was written.
fn write_session(text: &[u8], file: &[u8]) -> bool
    requires { text.now ≡ session_text file.now }
{
    io::write_all(1, text)
}

// Writes the text of a pass to standard output; the file and the pass say which text that is. Answers whether all of it was written. It does what
// `write_session` does, but each asks for a text of its own: docs/CALLS.md names both for that.
fn write_pass(text: &[u8], file: &[u8], i: usize) -> bool
    requires { text.now ≡ pass_text_rule file.now i }
{
    io::write_all(1, text)
}

// Prints the one line of a file that is refused, from the room for it.
fn print_refused(file: &[u8], r: Refusal, room: &mut [u8]) -> bool
    requires { (29 ≤ length room.old) × (session_text file.now ≡ refused_line (pos (number_of r))) }
{
    let end = put_refused(room, r.number());
    write_session(&room[..end], file)
}

// Prints the text of a pass, from the room for it, where each pass before it was written whole: no text follows a gap. Counts it to those if it is, too.
// Answers the pass's number, as `pass_text` hands it out.
fn print_pass(file: &[u8], i: usize, room: &mut [u8], written: &mut usize) -> i64
    requires { (172100 ≤ length room.old) × (written.old ≤ i) × (i < 256) }
    ensures { (result ≡ (lent_outcome file.now i).answer.refusal) × (written.new ≤ i + 1) }
{
    let t = pass_text(file, i, room);
    if *written == i && write_pass(&room[..t.length], file, i) {
        *written += 1;
    }
    t.refusal
}

// Prints each pass in turn, from the room for its text, and keeps its number, of which there is a place for each. The texts are the file's whole text.
// Answers how many were written whole; the first that was not is the last that was tried.
fn print_passes(s: Session<'_>, room: &mut [u8], numbers: &mut [i64]) -> usize
    requires { (172100 ≤ length room.old) × (length numbers.old ≤ 256) × (session_text s.file.now ≡ pass_texts s.file.now (length numbers.old)) }
    ensures { Numbers s.entry.file.now (length numbers.new) numbers.new }
{
    let mut written: usize = 0;
    for i in 0..numbers.len() {
        numbers[i] = print_pass(s.file, i, room, &mut written);
    }
    written
}

// The number of a file, whether all that it prints was written, and whether it and each of its passes were answered. No Result: what is written is told
// of a refused file, too.
#[derive(Drop)]
struct Judged {
    refusal: i64,
    whole: bool,
    answered: bool,
}

// Prints the tracks of a file's passes, or the file's refusal; then says on standard error what was refused, and why.
fn print_session(file: &[u8]) -> Judged
    ensures { (result.refusal ≡ (check_of file.now).refusal) × (result.answered ≡ all_answered_rule file.now) }
{
    let mut room = [0u8; 172100];
    match Session::read(file) {
        Err(r) => {
            let whole = print_refused(file, r, &mut room);
            say_line_lost(whole);
            explain_file(file);
            Judged {
                refusal: r.number(),
                whole,
                answered: false,
            }
        }
        Ok(s) => {
            let mut space = [0i64; 256];
            let numbers = &mut space[..s.count(3)];
            let written = print_passes(s, &mut room, numbers);
            say_passes_lost(written, numbers.len());
            explain_passes(s, numbers);
            Judged {
                refusal: 0,
                whole: written == numbers.len(),
                answered: passes_answered(file, numbers),
            }
        }
    }
}

// How many bytes were read to the start of a buffer, the number that `check` gives to them, whether a read or a write failed, and the status: numbers both,
// since `RunPromise` says which.
#[derive(Drop)]
pub struct Ran {
    pub bytes: usize,
    pub refusal: i64,
    pub lost: bool,
    pub status: u64,
}

// Reads a session file from standard input to the buffer, as far as it goes, prints its tracks, and tells the status to descriptor 3. The buffer has a byte
// more than a file may have, so that a longer input is seen to be too long.
pub fn run<R: Read>(stdin: &mut R, buffer: &mut [u8]) -> Ran
    ensures { RunPromise result buffer.new }
{
    let input = read_input(stdin, buffer);
    input.say_unread();
    let j = print_session(&buffer[..input.bytes]);
    let lost = lost_any(input.failed, j.whole);
    let ending = Ending::of(lost, j.answered);
    ending.tell();
    Ran {
        bytes: input.bytes,
        refusal: j.refusal,
        lost,
        status: ending.status(),
    }
}
