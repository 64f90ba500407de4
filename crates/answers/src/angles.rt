// Questions on ticks, epochs and Earth rotation, 1 to 7.
use crate::numbers::Head;
use crate::print::{print_number, print_numbers};

// A negative tick is read modulo 2^32.
fn tick(a: i64) -> u32 {
    (a.cast_unsigned() % 4294967296) as u32
}

fn arguments(day: i64, ms: i64, tai: i64) {
    let a = earth::arguments(day, ms, tai);
    print_numbers(&[
        a.refusal,
        a.n,
        a.l as i64,
        a.lp as i64,
        a.f as i64,
        a.d as i64,
        a.om as i64,
    ]);
}

fn angle_at(day: i64, f: i64) {
    let a = earth::angle_at(day, f);
    print_numbers(&[a.refusal, a.e, a.tick as i64]);
}

fn later(day: i64, ms: i64, add: i64) {
    let a = earth::later(day, ms, add);
    print_numbers(&[a.refusal, a.day, a.ms]);
}

fn rotate(t: u32) {
    print_numbers(earth::rotate(t).as_flattened());
}

pub(crate) fn answer(head: &Head) {
    match head.what {
        1 => print_numbers(&[sine::sine(tick(head.a))]),
        2 => print_numbers(&[sine::cosine(tick(head.a))]),
        3 => arguments(head.a, head.b, head.c),
        4 => print_number(earth::tide(head.a, head.b, head.c)),
        5 => angle_at(head.a, head.b),
        6 => later(head.a, head.b, head.c),
        _ => rotate(tick(head.a)),
    }
}
