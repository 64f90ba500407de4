// The five arguments, in ticks.
ghost use Rattle.std.specs.Prelude.{◌≡◌, ◌^◌, ◌<◌, ◌≤◌, pos};
ghost use Rattle.whole.specs.Whole.{∣◌∣};
ghost use Rattle.earth.specs.DelaunayArguments.{argument_of, arguments_of};

use whole::long::{argument_product, argument_ticks};

// The Delaunay arguments l, l', F, D and Ω.
#[derive(Clone, Copy)]
pub struct Delaunay {
    pub l: u32,
    pub lp: u32,
    pub f: u32,
    pub d: u32,
    pub om: u32,
}

// One argument at n minutes of TT, of its constant and its rate per century, which has 52,596,000 minutes. The turn is M of document 01; the
// constant times 52,596,000 is below it.
#[tactic(auto, unfolding(crate::specs::DelaunayArguments::argument_of))]
fn argument(constant: u64, rate: i64, n: i64) -> u32
    requires { (constant ≤ 12_871_047_930) × (∣ rate ∣ < 2 ^ 44) × (∣ n ∣ < 2 ^ 26) }
    ensures { result ≡ argument_of (pos constant) rate n }
{
    let w = (constant * 52_596_000 + argument_product(rate, n)) % 681_644_160_000_000_000;
    argument_ticks(w)
}

// The five arguments at n minutes of TT.
#[tactic(auto, unfolding(crate::specs::DelaunayArguments::arguments_of))]
pub fn arguments_at(n: i64) -> Delaunay
    requires { ∣ n ∣ < 2 ^ 26 }
    ensures { result ≡ arguments_of n }
{
    Delaunay {
        l: argument(4_858_682_490, 17_179_159_232_178, n),
        lp: argument(12_871_047_930, 1_295_965_810_481, n),
        f: argument(3_357_795_262, 17_395_272_628_478, n),
        d: argument(10_722_607_037, 16_029_616_012_090, n),
        om: argument(4_501_603_980, -69_628_905_431, n),
    }
}
