#![tactic(auto)]

ghost use Rattle.std.specs.Prelude.{◌≡◌, ◌-◌, ◌*◌, ◌/◌, ◌%◌, ◌^◌, ◌<◌, ◌≤◌, if◌then◌else◌};
ghost use Rattle.sine.specs.Sine.{y_of_rule, z_of, step_of, S};
ghost use Rattle.sine.specs.Promises.{SinePromise, CosinePromise};

use whole::sign::with_sign;

// The argument of S in radians, scaled by 2^30.
fn y_of(r: u64) -> u64
    requires { r ≤ 2 ^ 30 }
    ensures { (result ≡ y_of_rule r) × (result ≤ 1686629713) }
{
    r * 1686629713 / 1073741824
}

// Its square.
fn z_of(y: u64) -> u64
    requires { y ≤ 1686629713 }
    ensures { (result ≡ z_of y) × (result ≤ 2649352000) }
{
    y * y / 1073741824
}

// One step of the polynomial, with the divisor k.
fn step(z: u64, h: u64, k: u64) -> u64
    requires { (z ≤ 2649352000) × (h ≤ 2 ^ 30) × (3 ≤ k) × (k ≤ 1000) }
    ensures { (result ≡ step_of z h k) × (result ≤ 2 ^ 30) }
{
    1073741824 - z * h / (k * 1073741824)
}

// S(r) of document 01: the sine of r / 2^30 of a quarter turn.
fn s_of(r: u64) -> u64
    requires { r ≤ 2 ^ 30 }
    ensures { result ≡ S r }
{
    let y = y_of(r);
    let z = z_of(y);
    let h6 = 1073741824 - z / 156;
    let h5 = step(z, h6, 110);
    let h4 = step(z, h5, 72);
    let h3 = step(z, h4, 42);
    let h2 = step(z, h3, 20);
    let h1 = step(z, h2, 6);
    (y * h1 / 1073741824).min(1073741824)
}

// What is left of a quarter after r where it runs back, and r where it does not.
fn turned(back: bool, r: u64) -> u64
    requires { r ≤ 2 ^ 30 }
    ensures { (result ≡ (if back then 2 ^ 30 - r else r)) × (result ≤ 2 ^ 30) }
{
    if back { 1073741824 - r } else { r }
}

// The sine of a tick, scaled by 2^30.
pub fn sine(a: u32) -> i64
    ensures { SinePromise a result }
{
    let q = a / 1073741824;
    let r = u64::from(a % 1073741824);
    let t = turned(q % 2 == 1, r);
    with_sign(q >= 2, s_of(t))
}

// The cosine of a tick, scaled by 2^30.
#[tactic(auto, unfolding(crate::specs::Sine::cosine_of))]
pub fn cosine(a: u32) -> i64
    ensures { CosinePromise a result }
{
    sine(a.wrapping_add(1073741824))
}
