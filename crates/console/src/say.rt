// Words for people, on standard error. They are written to its descriptor: no caller is lent a handle by which std's `print!` could, `program::run` for one.
use text::decimal::decimal_text;

pub fn say(words: &[u8]) {
    io::write_all(2, words);
}

// A number in decimal.
pub fn say_decimal(z: i64) {
    let mut room = [0u8; 20];
    let digits = decimal_text(&mut room, z);
    say(digits);
}

pub fn say_natural(n: u64) {
    io::print_decimal(2, n);
}
