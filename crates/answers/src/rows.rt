// The question on rows of finals2000A that are read, 22: the first of the lent bytes are TAI-UTC, as numbers, the others the text.
use crate::numbers::{Head, index, numbers_of};
use crate::print::{print_bits, print_numbers};
use whole::sign::size;

pub(crate) fn days_from_rows(head: &Head, file: &[u8]) {
    let n = index(head.c);
    let mut space = [0i64; 8320];
    if n <= 8320 && n <= file.len() / 8 {
        let tai = &mut space[..n];
        numbers_of(file, tai);
        let a = bulletin::days_from_rows(&file[8 * n..], head.a, head.b, tai);
        print_bits(size(a.refusal), b' ');
        print_numbers(&a.days);
    }
}
