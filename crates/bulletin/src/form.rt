// Decimals that fill columns of their own: read, and written.
ghost use Rattle.std.specs.Prelude.{◌≡◌, true, ◌+◌, ◌/◌, ◌^◌, ◌<◌, ◌≤◌, eqb, length};
ghost use Rattle.whole.specs.Whole.{mod_z};
ghost use Rattle.text.specs.Put.{Put};
ghost use Rattle.bulletin.specs.Decimals.{past_blanks_rule, is_minus_rule, past_minus_rule, is_decimal_rule, units_of_rule, last_digits, minus_of, printed};

use text::decimal::{all_digits, put_natural, read_natural, read_on};
use whole::below::first_failing;
use whole::sign::{size, with_sign};

// ---- read

// What stands behind the blanks at the start.
fn past_blanks(s: &[u8]) -> &[u8]
    ensures { result.now ≡ past_blanks_rule s.now }
{
    &s[first_failing(s.len(), |i| s[i] == 32)..]
}

// Whether a `-` stands at the start.
#[tactic(auto, using(crate::proofs::FormLaws::minus_none, crate::proofs::FormLaws::minus_some))]
pub fn is_minus(s: &[u8]) -> bool
    ensures { result ≡ is_minus_rule s.now }
{
    !s.is_empty() && s[0] == 45
}

// What stands behind it.
#[tactic(auto, using(crate::proofs::FormLaws::rest_is), unfolding(crate::specs::Decimals::is_minus_rule, crate::specs::Decimals::past_minus_rule))]
pub fn past_minus(s: &[u8]) -> &[u8]
    ensures { result.now ≡ past_minus_rule s.now }
{
    if is_minus(s) { &s[1..] } else { s }
}

// Whether the columns s hold a decimal with p digits behind the point.
#[tactic(auto, using(crate::proofs::FormLaws::front_is, crate::proofs::FormLaws::back_is), unfolding(crate::specs::Decimals::is_decimal_rule))]
pub fn is_decimal(s: &[u8], p: usize) -> bool
    requires { p + 1 < length s.now }
    ensures { result ≡ is_decimal_rule p s.now }
{
    let point = s.len() - p - 1;
    let digits = past_minus(past_blanks(&s[0..point]));
    !digits.is_empty() && all_digits(digits) && s[point] == 46 && all_digits(&s[point + 1..])
}

// Its value in units of the last decimal.
pub fn units_of(s: &[u8], p: usize) -> i64
    requires { (p + 1 < length s.now) × (length s.now ≤ 10) × (is_decimal_rule p s.now ≡ true) }
    ensures { result ≡ units_of_rule p s.now }
{
    let point = s.len() - p - 1;
    let signed = past_blanks(&s[0..point]);
    let n = read_natural(past_minus(signed));
    with_sign(is_minus(signed), read_on(n, &s[point + 1..]))
}

// Whether z is whole hundreds.
pub fn whole_hundreds(z: i64) -> bool
    ensures { result ≡ eqb (mod_z z 100) 0 }
{
    size(z) % 100 == 0
}

// ---- written

// n / 10^p, a digit at a time: `10u64.pow(p)` would overflow for a p above 19, which no clause here shuts out.
fn tenths(n: u64, p: usize) -> u64
    ensures { result ≡ n / 10 ^ p }
{
    if p == 0 {
        return n;
    }
    tenths(n / 10, p - 1)
}

// The last p digits of n, from at on; the place behind them. A recursion, as `last_digits` is one: `put_natural` of crate text leaves out zeros in front.
fn put_last(room: &mut [u8], at: usize, p: usize, n: u64) -> usize
    requires { at + p ≤ length room.old }
    ensures { Put room.old at (last_digits p n) room.new result }
{
    if p == 0 {
        return at;
    }
    let end = put_last(room, at, p - 1, n / 10);
    room[end] = 48 + (n % 10) as u8;
    end + 1
}

// A `-` at the start of the room, where z is negative; the place behind it.
fn put_minus(room: &mut [u8], z: i64) -> usize
    requires { 1 ≤ length room.old }
    ensures { Put room.old 0 (minus_of z) room.new result }
{
    if z < 0 {
        room[0] = 45;
        return 1;
    }
    0
}

// z units with p decimals, at the start of the room; the place behind.
pub fn put_printed(room: &mut [u8], p: usize, z: i64) -> usize
    requires { (p ≤ 9) × (32 ≤ length room.old) }
    ensures { Put room.old 0 (printed p z) room.new result }
{
    let n = size(z);
    let at = put_minus(room, z);
    let point = put_natural(room, at, tenths(n, p));
    room[point] = 46;
    put_last(room, point + 1, p, n)
}
