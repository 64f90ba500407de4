// Questions on a session file, 8 to 16 and 24: its records, days, delays, and the track of a pass.
use crate::numbers::{Head, index};
use crate::print::{print_number, print_numbers};
use crate::rooms::pass_with_room;

fn check(file: &[u8]) {
    let a = session::check(file);
    print_numbers(&[
        a.refusal, a.stations, a.sources, a.days, a.passes, a.day_kind,
    ]);
}

fn fault(file: &[u8]) {
    let a = session::fault(file);
    print_numbers(&[a.number, a.section, a.record, a.field]);
}

fn station_at(file: &[u8], i: usize) {
    let a = session::station_at(file, i);
    print_numbers(&[a.refusal, a.id, a.x, a.y, a.z]);
}

fn source_at(file: &[u8], i: usize) {
    let a = session::source_at(file, i);
    print_numbers(&[a.refusal, a.id, a.right_ascension, a.declination]);
}

fn day_at(file: &[u8], i: usize) {
    let a = session::day_at(file, i);
    print_numbers(&[a.refusal, a.mjd, a.x, a.y, a.ut1_utc, a.tai_utc, a.mark]);
}

fn pass_at(file: &[u8], i: usize) {
    let a = session::pass_at(file, i);
    print_numbers(&[
        a.refusal,
        a.station1,
        a.station2,
        a.source,
        a.mjd,
        a.ms,
        a.step,
        a.samples,
        a.tolerance,
    ]);
}

fn orientation(file: &[u8], day: i64, ms: i64) {
    let a = delay::orientation(file, day, ms);
    print_numbers(&[a.refusal, a.x, a.y, a.ut1_used, a.tick as i64]);
}

fn delay_of(head: &Head, file: &[u8]) {
    print_number(delay::delay(file, head.a, head.b, head.c, head.d, head.e));
}

pub(crate) fn answer(head: &Head, file: &[u8]) {
    match head.what {
        8 => check(file),
        9 => fault(file),
        10 => station_at(file, index(head.a)),
        11 => source_at(file, index(head.a)),
        12 => day_at(file, index(head.a)),
        13 => pass_at(file, index(head.a)),
        14 => orientation(file, head.a, head.b),
        15 => delay_of(head, file),
        16 => pass_with_room(head, file, delay::samples),
        _ => pass_with_room(head, file, fringe::pass_track),
    }
}
