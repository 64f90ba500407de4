// A signed number's size, its sign, its place in a range, and a number of the code as one. docs/CALLS.md has these names. `number` is no `try_from`: its Err is
// what the clause shuts out.
ghost use Rattle.std.specs.Prelude.{◌≡◌, ◌^◌, ◌<◌, pos};
ghost use Rattle.whole.specs.Ranges.{within};
ghost use Rattle.whole.specs.Whole.{∣◌∣, sign_of};

// Whether x lies from lo to hi, both included.
pub fn in_range(x: i64, lo: i64, hi: i64) -> bool
    ensures { result ≡ within lo hi x }
{
    (lo..=hi).contains(&x)
}

// The size of x; that of the least i64 fits too.
pub fn size(x: i64) -> u64
    ensures { result ≡ ∣ x ∣ }
{
    x.unsigned_abs()
}

// n, or -n where it is to be negative.
pub fn with_sign(negative: bool, n: u64) -> i64
    requires { n < 2 ^ 63 }
    ensures { result ≡ sign_of negative n }
{
    if negative { -(n as i64) } else { n as i64 }
}

// A number of the code, as an answer holds it.
pub fn number(n: usize) -> i64
    requires { n < 2 ^ 63 }
    ensures { result ≡ pos n }
{
    n as i64
}
