// Lines of numbers, put into a lent room: each function answers the place behind what it put. A room and a place stay two, as in decimal.rt.
ghost use Rattle.std.specs.Prelude.{◌+◌, ◌*◌, ◌≤◌, length};
ghost use Rattle.text.specs.Put.{Put};
ghost use Rattle.text.specs.Table.{row_line, row_lines, refused_line};

use crate::decimal::{put_number, put_word};

// The numbers of a row, from at on.
fn put_row(room: &mut [u8], at: usize, row: &[i64]) -> usize
    requires { (1 ≤ length row.now) × (at + 21 * length row.now ≤ length room.old) }
    ensures { Put room.old at (row_line row.now) room.new result × (result ≤ at + 21 * length row.now) }
{
    let Some((last, before)) = row.split_last() else {
        unreachable!()
    };
    let mut end = at;
    for z in before {
        end = put_number(room, end, *z, b' ');
    }
    put_number(room, end, *last, b'\n')
}

// The first m rows of numbers that stand w in a row, from at on. `row_lines` of the theorems takes w, the list and m, and so does this.
pub fn put_rows(room: &mut [u8], at: usize, numbers: &[i64], w: usize, m: usize) -> usize
    requires { (1 ≤ w) × (at + 21 * (w * m) ≤ length room.old) × (w * m ≤ length numbers.now) }
    ensures { Put room.old at (row_lines w numbers.now m) room.new result × (result ≤ at + 21 * (w * m)) }
{
    let mut end = at;
    for row in numbers[..w * m].chunks_exact(w) {
        end = put_row(room, end, row);
    }
    end
}

// The line of a refusal, at the start of the room. Its promise speaks of every number n, so n is no `Refusal`.
pub fn put_refused(room: &mut [u8], n: i64) -> usize
    requires { 29 ≤ length room.old }
    ensures { Put room.old 0 (refused_line n) room.new result }
{
    let number = put_word(room, 0, b"refused ");
    put_number(room, number, n, b'\n')
}
