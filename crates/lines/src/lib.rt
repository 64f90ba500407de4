// The text that the program prints of a file, put into a lent room: specs/Text.antt says what it is. No Display: `pass_text` promises each byte of the room
// (`Put`), a String is heap, and a writer of our own over the room would say no more than the calls of crate text.
#![tactic(auto)]

ghost use Rattle.std.specs.Prelude.{◌≡◌, ◌≤◌, length};
ghost use Rattle.text.specs.Put.{Put};
ghost use Rattle.lines.specs.Text.{pass_line, pass_text_rule, lent_outcome};

use fringe::pass_track;
use text::decimal::{put_natural, put_number, put_word};
use text::table::{put_refused, put_rows};
use whole::sign::size;

// "pass index and segment count", at the start of the room.
fn put_pass(room: &mut [u8], pass: usize, segments: i64) -> usize
    requires { 47 ≤ length room.old }
    ensures { Put room.old 0 (pass_line pass segments) room.new result × (result ≤ 47) }
{
    let index = put_word(room, 0, b"pass ");
    let space = put_natural(room, index, pass as u64);
    let count = put_word(room, space, b" ");
    put_number(room, count, segments, b'\n')
}

// How long the text of a pass is, and the pass's refusal, 0 for none. No Result: the line of a refused pass has a length, too. The refusal is the number
// that `fringe::pass_track` hands to C and `pass_text` promises: an enum made of it here would only be made a number again, to be printed.
#[derive(Drop)]
pub struct Text {
    pub length: usize,
    pub refusal: i64,
}

// Puts the text of a pass, counted from 0, at the start of the room.
pub fn pass_text(file: &[u8], pass: usize, room: &mut [u8]) -> Text
    requires { 172100 ≤ length room.old }
    ensures { Put room.old 0 (pass_text_rule file.now pass) room.new result.length × (result.refusal ≡ (lent_outcome file.now pass).answer.refusal) }
{
    let mut segments = [0i64; 8192];
    let r = pass_track(file, pass, &mut segments);
    let n = r.refusal;
    if 1 <= n {
        let line = put_refused(room, n);
        return Text {
            length: line,
            refusal: n,
        };
    }
    let m = r.value;
    let start = put_pass(room, pass, m);
    let end = put_rows(room, start, &segments, 4, size(m) as usize);
    Text {
        length: end,
        refusal: n,
    }
}
