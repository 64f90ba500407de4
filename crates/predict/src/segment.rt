// A segment of a lent track, and the four conditions on it, one by one.
ghost use Rattle.std.specs.Prelude.{◌≡◌, ◌+◌, ◌*◌, ◌≤◌, ◌<◌, pos, ◌≤ℤ◌, length};
ghost use Rattle.whole.specs.Whole.{∣◌∣};
ghost use Rattle.predict.specs.Lent.{lent_at, place_in_rule, length_ok_rule, range_ok_rule, segment_ok_rule};
ghost use Rattle.predict.specs.Ends.{ends_ok_rule};

use whole::long::within;
use whole::sign::{in_range, size};

// The four numbers of a segment, whatever they are.
#[derive(Clone, Copy)]
pub struct Lent {
    pub first: i64,
    pub count: i64,
    pub offset: i64,
    pub rate: i64,
}

// Segment i of a track that has it. It asks for that, which a `From` cannot; and a lent track is a slice of numbers, for C.
pub fn lent_at(track: &[i64], i: usize) -> Lent
    requires { 4 * i + 3 < length track.now }
    ensures { result ≡ lent_at track.now i }
{
    let b = 4 * i;
    Lent {
        first: track[b],
        count: track[b + 1],
        offset: track[b + 2],
        rate: track[b + 3],
    }
}

// Place: it starts where the one before it ended, and ends at sample n or before.
pub fn place_in(n: u64, at: u64, x: Lent) -> bool
    requires { (at ≤ n) × (n ≤ 4096) }
    ensures { result ≡ place_in_rule n at x }
{
    let a = at as i64;
    x.first == a && x.count <= n as i64 - a
}

// Length: how many samples it has.
pub fn length_ok(x: Lent) -> bool
    ensures { result ≡ length_ok_rule x }
{
    in_range(x.count, 1, 1024)
}

// Range: its offset and its rate.
pub fn bounds_ok(x: Lent) -> bool
    ensures { result ≡ range_ok_rule x }
{
    size(x.offset) <= 9_000_000_000_000_000 && size(x.rate) <= 20_000_000_000_000_000
}

// Predictions: those at its first and its last sample, between which all others lie.
fn ends_ok(x: Lent) -> bool
    requires offset_bound { (∣ x.offset ∣ ≤ 9_000_000_000_000_000) × (∣ x.rate ∣ ≤ 20_000_000_000_000_000) }
    requires count_bound { (pos 1 ≤ℤ x.count) × (x.count ≤ℤ pos 1024) }
    ensures { result ≡ ends_ok_rule x.offset x.rate x.count }
{
    size(x.offset) <= 8_585_216_000_032_767
        && within(x.offset, x.rate, x.count - 1, 0, 8_585_216_000_032_767)
}

// Whether a segment that `at` samples stand before is well-formed: in its place, where a track has at most 4,096 samples, and so on.
pub fn segment_ok(at: u64, x: Lent) -> bool
    requires { at ≤ 4096 }
    ensures { result ≡ segment_ok_rule at x }
{
    place_in(4096, at, x) && length_ok(x) && bounds_ok(x) && ends_ok(x)
}
