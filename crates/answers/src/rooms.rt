// Calls that write to a room: it is filled before the call, and printed after it. Each makes its room itself: of an array of any item and any length a part
// is proved only where its size in bytes is known, so one function for all did not close.
use crate::numbers::{Head, index};
use crate::print::{print_bits, print_bytes, print_number, print_numbers};
use whole::Number;
use whole::sign::size;

// What fills a room of numbers.
const NUMBER: i64 = 0x5555_5555_5555_5555;

// What fills a room of bytes.
const BYTE: u8 = 0xa5;

// The samples of a pass, or its track.
pub(crate) fn pass_with_room<F: FnOnce(&[u8], usize, &mut [i64]) -> Number>(
    head: &Head,
    file: &[u8],
    call: F,
)
    requires { F.IsAlwaysCallable call }
{
    let mut space = [NUMBER; 8200];
    if let Some(room) = space.get_mut(..index(head.room)) {
        print_number(call(file, index(head.a), room));
        print_numbers(room);
    }
}

pub(crate) fn track_with_room(samples: &[i64], tolerance: i64, m: usize) {
    let mut space = [NUMBER; 8200];
    if let Some(room) = space.get_mut(..m) {
        print_number(track::track(samples, tolerance, room));
        print_numbers(room);
    }
}

pub(crate) fn all_tracks_with_room(file: &[u8], m: usize) {
    let mut space = [NUMBER; 8200];
    if let Some(room) = space.get_mut(..m) {
        let t = fringe::all_tracks(file, room);
        print_bits(size(t.refusal), b' ');
        print_numbers(&t.counts);
        print_numbers(room);
    }
}

pub(crate) fn rows_with_room(days: &[i64], m: usize) {
    let mut space = [BYTE; 16384];
    if let Some(room) = space.get_mut(..m) {
        print_number(bulletin::rows_from_days(days, room));
        print_bytes(room);
    }
}

// The first three of the four lists have a, b and c numbers; the days have kind d. Nothing where they are longer than what is lent.
pub(crate) fn write_with_room(head: &Head, list: &[i64]) {
    let Some((stations, behind)) = list.split_at_checked(index(head.a)) else {
        return;
    };
    let Some((sources, behind)) = behind.split_at_checked(index(head.b)) else {
        return;
    };
    let Some((days, passes)) = behind.split_at_checked(index(head.c)) else {
        return;
    };
    let mut space = [BYTE; 16384];
    if let Some(room) = space.get_mut(..index(head.room)) {
        print_number(writer::write(head.d, stations, sources, days, passes, room));
        print_bytes(room);
    }
}
