ghost use Rattle.std.specs.Prelude.{◌≡◌, ◌*◌, ◌/◌, ◌^◌, ◌<◌, ◌≤◌, leb, pos, ◌+ℤ◌, ◌-ℤ◌, ◌*ℤ◌, ◌≤ℤ◌};
ghost use Rattle.whole.specs.Whole.{pos_part, ∣◌∣, R, floor_z, mod_z, line};

#[unsafe(no_mangle)]
pub extern "C" fn bench_floor(x: i64, b: i64) -> i64
    requires { pos 1 ≤ℤ b }
    ensures { result ≡ floor_z x (pos_part b) }
{
    whole::divide::floor_div(x, b)
}

#[unsafe(no_mangle)]
pub extern "C" fn bench_round(a: i64, b: u64) -> i64
    requires { (∣ a ∣ < 2 ^ 63) × (0 < b) × (b ≤ 2 ^ 63) }
    ensures { result ≡ R a b }
{
    whole::divide::round_div(a, b)
}

#[unsafe(no_mangle)]
pub extern "C" fn bench_floor_60000(x: i64) -> i64
    ensures { result ≡ floor_z x 60000 }
{
    whole::divide::floor_div(x, 60000)
}

#[unsafe(no_mangle)]
pub extern "C" fn bench_round_1000000(a: i64) -> i64
    requires { ∣ a ∣ < 2 ^ 63 }
    ensures { result ≡ R a 1000000 }
{
    whole::divide::round_div(a, 1000000)
}

#[unsafe(no_mangle)]
pub extern "C" fn bench_line(v0: i64, v1: i64, u: i64) -> i64
    requires v0_bound { (∣ v0 ∣ ≤ 1000000000000) × (∣ v1 ∣ ≤ 1000000000000) × (∣ v1 -ℤ v0 ∣ ≤ 101000000000) }
    requires pos_bound { (pos 0 ≤ℤ u) × (u ≤ℤ pos 86399999) }
    ensures { result ≡ line v0 v1 u }
{
    whole::divide::line_at(v0, v1, u)
}

#[unsafe(no_mangle)]
pub extern "C" fn bench_argument_ticks(w: u64) -> u32
    requires { w < 681644160000000000 }
    ensures { result ≡ 2 ^ 32 * w / 681644160000000000 }
{
    whole::long::argument_ticks(w)
}

#[unsafe(no_mangle)]
pub extern "C" fn bench_argument_product(rate: i64, n: i64) -> u64
    requires { (∣ rate ∣ < 2 ^ 44) × (∣ n ∣ < 2 ^ 26) }
    ensures { result ≡ mod_z (rate *ℤ n) 681644160000000000 }
{
    whole::long::argument_product(rate, n)
}

#[unsafe(no_mangle)]
pub extern "C" fn bench_rotation_ticks(e: u64) -> u32
    requires { e < 100000000000000000 }
    ensures { result ≡ 2 ^ 32 * e / 100000000000000000 }
{
    whole::long::rotation_ticks(e)
}

#[unsafe(no_mangle)]
pub extern "C" fn bench_turned(x: i64, y: i64, c: i64, d: i64) -> i64
    requires { (∣ x ∣ ≤ 2 ^ 36) × (∣ y ∣ ≤ 2 ^ 36) × (∣ c ∣ ≤ 2 ^ 30) × (∣ d ∣ ≤ 2 ^ 30) }
    ensures { result ≡ R (x *ℤ c +ℤ y *ℤ d) 1073741824 }
{
    whole::long::turned(x, y, c, d)
}

#[unsafe(no_mangle)]
pub extern "C" fn bench_light_time(g: i64) -> i64
    requires { ∣ g ∣ ≤ 40000000000 }
    ensures { result ≡ R (g *ℤ pos 1000000000) 299792458 }
{
    whole::long::light_time(g)
}

#[unsafe(no_mangle)]
pub extern "C" fn bench_within(a: i64, r: i64, j: i64, s: i64, k: i64) -> bool
    requires a_bound { (∣ a ∣ ≤ 9000000000000000) × (∣ r ∣ ≤ 20000000000000000) × (∣ j ∣ ≤ 1023) }
    requires s_bound { (∣ s ∣ ≤ 131000000000) × (∣ k ∣ ≤ 9000000000000000) }
    ensures { result ≡ leb ∣ a +ℤ r *ℤ j -ℤ pos 65536 *ℤ s ∣ ∣ k ∣ }
{
    whole::long::within(a, r, j, s, k)
}
