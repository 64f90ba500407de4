// The rows of the tide in UT1, the angle of a row, and the sum over any rows.
ghost use Rattle.std.specs.Prelude.{◌≡◌, ℕ, ◌+◌, ◌^◌, ◌<◌, ◌≤◌, pos, ◌+ℤ◌, ◌*ℤ◌};
ghost use Rattle.whole.specs.Whole.{∣◌∣, mod_z};
ghost use Rattle.earth.specs.Rows.{rows};
ghost use Rattle.earth.specs.TideInUT1.{amplitude, row_angle_rule, row_term_rule, rows_sum, sizes, Few, AllFew, tide_at};

use crate::ticks::{Delaunay, arguments_at};
use whole::divide::round_div;
use whole::sign::size;

// Document 01's rows: multipliers of l, l', F, D, Ω, then A in microseconds.
const TABLE: [[i64; 6]; 41] = [
    [1, 0, 2, 2, 2, -2],
    [2, 0, 2, 0, 1, -4],
    [2, 0, 2, 0, 2, -10],
    [0, 0, 2, 2, 1, -5],
    [0, 0, 2, 2, 2, -12],
    [1, 0, 2, 0, 0, -4],
    [1, 0, 2, 0, 1, -41],
    [1, 0, 2, 0, 2, -99],
    [3, 0, 0, 0, 0, -2],
    [-1, 0, 2, 2, 1, -8],
    [-1, 0, 2, 2, 2, -20],
    [1, 0, 0, 2, 0, -8],
    [2, 0, 2, -2, 2, 2],
    [0, 1, 2, 0, 2, 3],
    [0, 0, 2, 0, 0, -30],
    [0, 0, 2, 0, 1, -321],
    [0, 0, 2, 0, 2, -776],
    [2, 0, 0, 0, -1, 2],
    [2, 0, 0, 0, 0, -34],
    [2, 0, 0, 0, 1, 2],
    [0, -1, 2, 0, 2, -2],
    [0, 0, 0, 2, -1, 5],
    [0, 0, 0, 2, 0, -73],
    [0, 0, 0, 2, 1, -5],
    [0, -1, 0, 2, 0, -5],
    [1, 0, 2, -2, 1, 5],
    [1, 0, 2, -2, 2, 10],
    [1, 1, 0, 0, 0, 4],
    [-1, 0, 2, 0, 0, 5],
    [-1, 0, 2, 0, 1, 18],
    [-1, 0, 2, 0, 2, 44],
    [1, 0, 0, 0, -1, 53],
    [1, 0, 0, 0, 0, -826],
    [1, 0, 0, 0, 1, 54],
    [0, 0, 0, 1, 0, 5],
    [1, -1, 0, 0, 0, -6],
    [-1, 0, 0, 2, -1, 12],
    [-1, 0, 0, 2, 0, -182],
    [-1, 0, 0, 2, 1, 13],
    [1, 0, -2, 2, -1, 2],
    [-1, -1, 0, 2, 0, -9],
];

// The sum after so many steps. A column is worked by additions, or by subtractions, and by no product (document 02, L5).
fn stepped<F: Fn(u32) -> u32>(sum: u32, times: u64, step: F) -> u32
    requires { F.IsAlwaysCallable step }
    ensures { (at : ℕ → ℕ) → at 0 ≡ sum → ((i next : ℕ) → F.post step (at i) next → next ≡ at (i + 1)) → result ≡ at times }
{
    let mut sum = sum;
    for _ in 0..times {
        sum = step(sum);
    }
    sum
}

// The sum with one column more: its argument added as often as the multiplier says, or subtracted as often where that is negative.
// Each branch takes the size by itself, and each closure the argument: the compiler then finds one product for both.
fn with_column(sum: u32, multiplier: i64, argument: u32) -> u32
    ensures { result ≡ mod_z (pos sum +ℤ multiplier *ℤ pos argument) (2 ^ 32) }
{
    if multiplier < 0 {
        stepped(sum, size(multiplier), move |sum| sum.wrapping_sub(argument))
    } else {
        stepped(sum, size(multiplier), move |sum| sum.wrapping_add(argument))
    }
}

// The five columns from left to right, as printed: 2 0 2 0 1 makes l + l + F + F + Ω.
#[tactic(auto, unfolding(crate::specs::TideInUT1::row_angle_rule))]
pub fn row_angle(row: [i64; 6], a: Delaunay) -> u32
    requires { Few row }
    ensures { result ≡ row_angle_rule row a }
{
    let sum = with_column(0, row[0], a.l);
    let sum = with_column(sum, row[1], a.lp);
    let sum = with_column(sum, row[2], a.f);
    let sum = with_column(sum, row[3], a.d);
    with_column(sum, row[4], a.om)
}

// A·sine of one row.
fn row_term(row: [i64; 6], a: Delaunay) -> i64
    requires { Few row × (∣ amplitude row ∣ ≤ 2 ^ 31) }
    ensures { result ≡ row_term_rule row a }
{
    let tick = row_angle(row, a);
    row[5] * sine::sine(tick)
}

// The sum of A·sine over any rows.
pub fn rows_sum(rows: &[[i64; 6]], a: Delaunay) -> i64
    requires { AllFew rows.now × (sizes rows.now ≤ 2 ^ 31) }
    ensures { result ≡ rows_sum rows.now a }
{
    let mut sum = 0;
    for row in rows {
        sum += row_term(*row, a);
    }
    sum
}

// The rows of the definition.
#[tactic(auto, unfolding(crate::specs::Rows::rows))]
fn table() -> &'static [[i64; 6]]
    ensures { result.now ≡ rows }
{
    &TABLE
}

// The tide in nanoseconds, at n minutes of TT. A sine is scaled by 2^30.
#[tactic(auto, unfolding(crate::specs::TideInUT1::tide_at))]
pub fn tide_at_minute(n: i64) -> i64
    requires { ∣ n ∣ < 2 ^ 26 }
    ensures { result ≡ tide_at n }
{
    let table = table();
    let t = rows_sum(table, arguments_at(n));
    round_div(1_000 * t, 1_073_741_824)
}
