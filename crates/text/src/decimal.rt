// Numbers and words as bytes of ASCII: put into a lent room, where each function answers the place behind what it put, and read.
// A room and a place stay two parameters: docs/CALLS.md names each function with both, and `Put` says by both what the lender finds. No String: no heap.
ghost use Rattle.std.specs.Prelude.{◌≡◌, true, ◌∷◌, [], ◌++◌, ◌+◌, ◌-◌, ◌^◌, ◌<◌, ◌≤◌, length};
ghost use Rattle.text.specs.Decimal.{digits_of, decimal, all_digits_rule, read_from_rule, read};
ghost use Rattle.text.specs.Put.{Put};

use crate::bytes::copy;

// The bytes of a word, from at on.
pub fn put_word(room: &mut [u8], at: usize, word: &[u8]) -> usize
    requires { at + length word.now ≤ length room.old }
    ensures { Put room.old at word.now room.new result }
{
    copy(room, at, word);
    at + word.len()
}

// How many digits n has.
#[tactic(auto, using(crate::proofs::Digits::by_logarithm))]
fn digits(n: u64) -> usize
    ensures { result ≡ length (digits_of n) }
{
    n.checked_ilog10().unwrap_or(0) as usize + 1
}

// The digits of n, from at on. They are put from the last to the first.
// `write!` would be no plainer: it goes through a writer that may fail, and here no call does. Nor would itoa: a second library to stand on, for one loop.
pub fn put_natural(room: &mut [u8], at: usize, n: u64) -> usize
    requires { at + length (digits_of n) ≤ length room.old }
    ensures { Put room.old at (digits_of n) room.new result }
{
    let end = at + digits(n);
    let mut rest = n;
    for i in (at..end).rev() {
        room[i] = b'0' + (rest % 10) as u8;
        rest /= 10;
    }
    end
}

// z in decimal, from at on.
pub fn put_decimal(room: &mut [u8], at: usize, z: i64) -> usize
    requires { at + 20 ≤ length room.old }
    ensures { Put room.old at (decimal z) room.new result × (result ≤ at + 20) }
{
    let n = z.unsigned_abs();
    if z < 0 {
        room[at] = b'-';
        put_natural(room, at + 1, n)
    } else {
        put_natural(room, at, n)
    }
}

// z in decimal, handed out as the start of a lent room.
#[tactic(auto, using(crate::proofs::Puts::put_start))]
pub fn decimal_text(room: &mut [u8], z: i64) -> &mut [u8]
    requires { 20 ≤ length room.old }
    ensures { result.now ≡ decimal z }
{
    let end = put_decimal(room, 0, z);
    &mut room[..end]
}

// z in decimal and a byte behind it, from at on.
pub fn put_number(room: &mut [u8], at: usize, z: i64, behind: u8) -> usize
    requires { at + 21 ≤ length room.old }
    ensures { Put room.old at (decimal z ++ (behind ∷ [])) room.new result × (result ≤ at + 21) }
{
    let end = put_decimal(room, at, z);
    room[end] = behind;
    end + 1
}

// Whether every byte is a digit.
pub fn all_digits(s: &[u8]) -> bool
    ensures { result ≡ all_digits_rule s.now }
{
    s.iter().all(|b| b.is_ascii_digit())
}

// The number that digits say behind those of n. Of 19 in all every one fits.
// `parse` would be no plainer: it asks for a str and answers a Result, has no digits before its own, and these bytes are known to be digits.
pub fn read_on(n: u64, s: &[u8]) -> u64
    requires { (all_digits_rule s.now ≡ true) × (length s.now ≤ 19) × (n < 10 ^ (19 - length s.now)) }
    ensures { result ≡ read_from_rule n s.now }
{
    let mut all = n;
    for b in s {
        all = 10 * all + u64::from(b - b'0');
    }
    all
}

// The number that digits say. Of 19 every one fits.
#[tactic(auto, using(crate::proofs::Reading::zero_below))]
pub fn read_natural(s: &[u8]) -> u64
    requires { (all_digits_rule s.now ≡ true) × (length s.now ≤ 19) }
    ensures { result ≡ read s.now }
{
    read_on(0, s)
}
