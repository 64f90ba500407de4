// The text that is printed of an answer, put into a lent room: specs/Text.antt says what it is.
ghost use Rattle.std.specs.Prelude.{◌≡◌, ◌≤◌, length};
ghost use Rattle.whole.specs.Whole.{pos_part, neg_part};
ghost use Rattle.text.specs.Put.{Put};
ghost use Rattle.text.specs.Table.{row_lines};
ghost use Rattle.bulletin.specs.Reading.{days_outcome};
ghost use Rattle.days.specs.Text.{days_text_rule};

use crate::words::Asked;
use bulletin::days_from_rows;
use text::table::{put_refused, put_rows};
use whole::sign::size;

// Puts the lines of so many records at the start of the room: 64 lines of six numbers fit it.
fn put_days(room: &mut [u8], days: &[i64], count: i64) -> usize
    requires { (pos_part count ≤ 64) × (neg_part count ≡ 0) × (384 ≤ length days.now) × (8064 ≤ length room.old) }
    ensures { Put room.old 0 (row_lines 6 days.now (pos_part count)) room.new result }
{
    put_rows(room, 0, days, 6, size(count) as usize)
}

// How long the text is, and the refusal, 0 for none, as the C interface has it: there is a text where a call is refused, too. `lines::Text` is its like; to
// share two fields this crate would have to stand on all that makes tracks.
#[derive(Drop)]
pub(crate) struct Text {
    pub length: usize,
    pub refusal: i64,
}

// Puts the text of the answer for these rows and words at the start of the room.
pub(crate) fn days_text(rows: &[u8], a: Asked, room: &mut [u8]) -> Text
    requires { 8064 ≤ length room.old }
    ensures { Put room.old 0 (days_text_rule rows.now a.entry.first a.entry.count a.entry.tai.now) room.new result.length × (result.refusal ≡ (days_outcome rows.now a.entry.first a.entry.count a.entry.tai.now).refusal) }
{
    let d = days_from_rows(rows, a.first, a.count, a.tai);
    let n = d.refusal;
    if 1 <= n {
        return Text {
            length: put_refused(room, n),
            refusal: n,
        };
    }
    Text {
        length: put_days(room, &d.days, a.count),
        refusal: n,
    }
}
