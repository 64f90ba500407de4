// Questions on the lent bytes as whole numbers, 17 to 20 and 23. Those with a room are answered in rooms.rt.
use crate::numbers::{Head, index, numbers_of};
use crate::print::{print_bits, print_number};
use crate::rooms::{rows_with_room, track_with_room, write_with_room};
use whole::sign::size;

// The bits of a double; 0 for one that is no number.
fn bits(x: f64) -> u64 {
    if x.is_nan() { 0 } else { x.to_bits() }
}

fn host_at(track: &[i64], sample: u64) {
    let h = predict::host_at(track, sample);
    print_bits(size(h.refusal), b' ');
    print_bits(bits(h.record.seconds), b' ');
    print_bits(bits(h.record.cycles), b'\n');
}

fn call(head: &Head, list: &[i64]) {
    match head.what {
        17 => write_with_room(head, list),
        18 => track_with_room(list, head.a, index(head.room)),
        19 => print_number(predict::predict(list, head.a.cast_unsigned())),
        23 => rows_with_room(list, index(head.room)),
        _ => host_at(list, head.a.cast_unsigned()),
    }
}

pub(crate) fn answer(head: &Head, file: &[u8]) {
    let mut space = [0i64; 8320];
    let n = file.len() / 8;
    if n <= 8320 {
        let list = &mut space[..n];
        numbers_of(file, list);
        call(head, list);
    }
}
