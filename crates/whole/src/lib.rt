// Whole-number arithmetic by document 01, 'Numbers used': signs and sizes, division rounded down or to the nearest, and products that pass 64 bits.
#![tactic(auto)]

pub mod below;
pub mod divide;
pub mod long;
mod refusal;
pub mod sign;

ghost use Rattle.std.specs.Prelude.{◌≡◌, ◌<◌};
ghost use Rattle.whole.specs.Answers.{answer_in, no_number_rule};

pub use refusal::Refusal;
use sign::number;

// What a call answers: 0 or the refusal's number, and a value, which is 0 where refused. C reads it, so the number stands beside the value.
#[repr(C)]
#[derive(Drop)]
pub struct Number {
    pub refusal: i64,
    pub value: i64,
}

impl From<Result<i64, Refusal>> for Number {
    ghost from_gives = { λ r n. n ≡ answer_in r };

    fn from(answer: Result<i64, Refusal>) -> Number {
        match answer {
            Ok(value) => Number { refusal: 0, value },
            Err(r) => Number {
                refusal: r.number(),
                value: 0,
            },
        }
    }
}

// The answer of a call that is refused with n, for a number that no `Refusal` has, too.
pub fn no_number(n: usize) -> Number
    requires { n < 65536 }
    ensures { result ≡ no_number_rule n }
{
    Number {
        refusal: number(n),
        value: 0,
    }
}
