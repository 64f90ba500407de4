// Division by a positive number, rounded down or to the nearest, and the line between two days.
ghost use Rattle.std.specs.Prelude.{◌≡◌, ◌+◌, ◌/◌, ◌^◌, ◌<◌, ◌≤◌, pos, ◌-ℤ◌, ◌≤ℤ◌};
ghost use Rattle.whole.specs.Steps.{half_for};
ghost use Rattle.whole.specs.Whole.{pos_part, ∣◌∣, near, R, floor_z, line};

use crate::sign::{size, with_sign};

// x / b rounded down.
pub fn floor_div(x: i64, b: i64) -> i64
    requires { pos 1 ≤ℤ b }
    ensures { result ≡ floor_z x (pos_part b) }
{
    if x >= 0 { x / b } else { -1 - (-1 - x) / b }
}

// h, less 1 for a negative number: added before a floor by 2·h, it sends a tie away from zero.
pub fn half(x: i64, h: i64) -> i64
    requires { pos 1 ≤ℤ h }
    ensures { result ≡ half_for x h }
{
    if x < 0 { h - 1 } else { h }
}

// The whole number nearest to a / b, a half going up.
pub fn nearest(a: u64, b: u64) -> u64
    requires { (0 < b) × (a + b / 2 < 2 ^ 64) }
    ensures { result ≡ near a b }
{
    (a + b / 2) / b
}

// R(a/b): nearest, halves away from zero. Each sign has its branch: one call with the test for a sign costs more instructions.
pub fn round_div(a: i64, b: u64) -> i64
    requires { (∣ a ∣ < 2 ^ 63) × (0 < b) × (b ≤ 2 ^ 63) }
    ensures { result ≡ R a b }
{
    if a < 0 {
        with_sign(true, nearest(size(a), b))
    } else {
        with_sign(false, nearest(size(a), b))
    }
}

// v0 + R((v1 - v0)·u / 86,400,000).
pub fn line_at(v0: i64, v1: i64, u: i64) -> i64
    requires v0_bound { (∣ v0 ∣ ≤ 1000000000000) × (∣ v1 ∣ ≤ 1000000000000) × (∣ v1 -ℤ v0 ∣ ≤ 101000000000) }
    requires pos_bound { (pos 0 ≤ℤ u) × (u ≤ℤ pos 86399999) }
    ensures { result ≡ line v0 v1 u }
{
    v0 + round_div((v1 - v0) * u, 86400000)
}
