// Answers questions on every call of the library: tests/README.md has the format, by whose numbers each file here tells the questions apart.
#![tactic(auto)]

ghost use Rattle.std.specs.Prelude.{◌≤◌};

mod angles;
mod files;
mod lists;
mod numbers;
mod print;
mod rooms;
mod rows;

use numbers::{Head, index};

// Any other `what` has its bytes lent and nothing more.
fn answer(head: &Head, file: &[u8]) {
    match head.what {
        1..=7 => angles::answer(head),
        8..=16 | 24 => files::answer(head, file),
        17..=20 | 23 => lists::answer(head, file),
        21 => rooms::all_tracks_with_room(file, index(head.room)),
        22 => rows::days_from_rows(head, file),
        _ => {}
    }
}

// What is lent to the calls: the first bytes of a space. There is no heap and so no Vec: their number stands beside them.
#[derive(Drop)]
struct Lent {
    space: [u8; 66560],
    length: usize,
    ghost within: { length ≤ 66560 },
}

impl Lent {
    // Takes in m bytes in place of those that are lent, if there is room for them.
    fn take_in(&mut self, m: usize) {
        if let Some(part) = self.space.get_mut(..m) {
            self.length = io::read_full(0, part);
        }
    }

    fn bytes(&self) -> &[u8] {
        &self.space[..self.length]
    }
}

// Reads a head and answers its question. Answers whether there was a head, not cut short.
fn answer_next(lent: &mut Lent) -> bool {
    let mut bytes = [0u8; 64];
    if io::read_full(0, &mut bytes) < 64 {
        return false;
    }
    let head = Head::of(&bytes);
    lent.take_in(index(head.length));
    answer(&head, lent.bytes());
    true
}

// Nothing says that an input ends, so the questions are counted, to a number that no run reaches.
fn main() {
    let mut lent = Lent {
        space: [0; 66560],
        length: 0,
    };
    for _ in 0..u64::MAX {
        if !answer_next(&mut lent) {
            return;
        }
    }
}
