// The products of document 01 that pass 64 bits, each split so that every step fits a word.
ghost use Rattle.std.specs.Prelude.{◌≡◌, ◌-◌, ◌*◌, ◌/◌, ◌%◌, ◌^◌, ◌<◌, ◌≤◌, leb, pos, ◌+ℤ◌, ◌-ℤ◌, ◌*ℤ◌};
ghost use Rattle.whole.specs.Whole.{∣◌∣, R, floor_z, mod_z};

use crate::divide::half;
use crate::sign::{in_range, size, with_sign};

// M of 'Arguments' is 681,644,160,000,000,000 = 2^16·10,401,064,453,125.

// floor(2^32·w / M), for w below M.
pub fn argument_ticks(w: u64) -> u32
    requires { w < 681644160000000000 }
    ensures { result ≡ 2 ^ 32 * w / 681644160000000000 }
{
    let q = w / 10401064453125;
    let r = w % 10401064453125;
    (q * 65536 + r * 65536 / 10401064453125) as u32
}

// (rate·n) modulo M, of two sizes.
fn size_product(rate: u64, n: u64) -> u64
    requires { (rate < 2 ^ 44) × (n < 2 ^ 26) }
    ensures { result ≡ rate * n % 681644160000000000 }
{
    let high = (rate / 65536) * n;
    let low = (rate % 65536) * n;
    let t = high + low / 65536;
    t % 10401064453125 * 65536 + low % 65536
}

// -m modulo M, for m below M.
fn turned_back(m: u64) -> u64
    requires { m < 681644160000000000 }
    ensures { result ≡ (681644160000000000 - m) % 681644160000000000 }
{
    if m == 0 { 0 } else { 681644160000000000 - m }
}

// (rate·n) modulo M, at least 0.
pub fn argument_product(rate: i64, n: i64) -> u64
    requires { (∣ rate ∣ < 2 ^ 44) × (∣ n ∣ < 2 ^ 26) }
    ensures { result ≡ mod_z (rate *ℤ n) 681644160000000000 }
{
    let m = size_product(size(rate), size(n));
    if (rate < 0) == (n < 0) {
        m
    } else {
        turned_back(m)
    }
}

// floor(2^32·e / 10^17), for e below 10^17 = 2^17·762,939,453,125.
pub fn rotation_ticks(e: u64) -> u32
    requires { e < 100000000000000000 }
    ensures { result ≡ 2 ^ 32 * e / 100000000000000000 }
{
    let q = e / 762939453125;
    let r = e % 762939453125;
    (q * 32768 + r * 32768 / 762939453125) as u32
}

// floor(x / 2^15): a signed number is shifted down.
fn upper(x: i64) -> i64
    requires { ∣ x ∣ ≤ 2 ^ 61 }
    ensures { result ≡ floor_z x 32768 }
{
    x >> 15
}

// x modulo 2^15, at least 0.
fn lower(x: i64) -> i64
    requires { ∣ x ∣ ≤ 2 ^ 61 }
    ensures { result ≡ pos (mod_z x 32768) }
{
    x - upper(x) * 32768
}

// R((2^15·high + low) / 2^30), by a floor: the half that is added sends a tie away from zero.
fn rounded(high: i64, low: i64) -> i64
    requires { (∣ high ∣ ≤ 2 ^ 60) × (∣ low ∣ ≤ 2 ^ 60) }
    ensures { result ≡ R (pos 32768 *ℤ high +ℤ low) 1073741824 }
{
    let sign = high + upper(low);
    upper(high + upper(low + half(sign, 536870912)))
}

// R((x·c + y·d) / 2^30).
pub fn turned(x: i64, y: i64, c: i64, d: i64) -> i64
    requires { (∣ x ∣ ≤ 2 ^ 36) × (∣ y ∣ ≤ 2 ^ 36) × (∣ c ∣ ≤ 2 ^ 30) × (∣ d ∣ ≤ 2 ^ 30) }
    ensures { result ≡ R (x *ℤ c +ℤ y *ℤ d) 1073741824 }
{
    let high = upper(x) * c + upper(y) * d;
    let low = lower(x) * c + lower(y) * d;
    rounded(high, low)
}

// R(g·10^9 / 299,792,458).
pub fn light_time(g: i64) -> i64
    requires { ∣ g ∣ ≤ 40000000000 }
    ensures { result ≡ R (g *ℤ pos 1000000000) 299792458 }
{
    let n = size(g);
    let q = n / 299792458;
    let r = n % 299792458;
    with_sign(
        g < 0,
        q * 1000000000 + (r * 1000000000 + 149896229) / 299792458,
    )
}

// floor(x / 1,024). `upper` is its like for 2^15: with a const parameter the clause would have a power in it, and the body is one shift.
fn upper_part(x: i64) -> i64
    ensures { result ≡ floor_z x 1024 }
{
    x >> 10
}

// Whether |a + p - 65,536·s| is at most k.
fn within_by(a: i64, p: i64, s: i64, k: i64) -> bool
    requires { (∣ a ∣ ≤ 9000000000000000) × (∣ p ∣ ≤ 2 ^ 56) × (∣ s ∣ ≤ 131000000000) }
    ensures { result ≡ leb ∣ a +ℤ p -ℤ pos 65536 *ℤ s ∣ ∣ k ∣ }
{
    size(a + p - 65536 * s) <= size(k)
}

// Whether |a + r·j - 65,536·s| is at most k. Where r·j may pass 64 bits it is far beyond what the other terms can balance.
pub fn within(a: i64, r: i64, j: i64, s: i64, k: i64) -> bool
    requires a_bound { (∣ a ∣ ≤ 9000000000000000) × (∣ r ∣ ≤ 20000000000000000) × (∣ j ∣ ≤ 1023) }
    requires s_bound { (∣ s ∣ ≤ 131000000000) × (∣ k ∣ ≤ 9000000000000000) }
    ensures { result ≡ leb ∣ a +ℤ r *ℤ j -ℤ pos 65536 *ℤ s ∣ ∣ k ∣ }
{
    let high = upper_part(r) * j;
    if !in_range(high, -35184372088832, 35184372088832) {
        return false;
    }
    within_by(a, r * j, s, k)
}
