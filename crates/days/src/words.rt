// The words behind the program's name, as whole numbers.
ghost use Rattle.std.specs.Prelude.{◌≡◌, ◌≤◌, length, IfOk};
ghost use Rattle.days.specs.Words.{few_digits_rule, parsed_of};

use bulletin::{is_minus, past_minus};
use console::say::{say, say_natural};
use std::env::{Env, FillError};
use text::decimal::{all_digits, read_natural};
use whole::sign::with_sign;

// What the words ask for: the days from the first on, so many, and the TAI-UTC of each.
#[derive(Clone, Copy)]
pub(crate) struct Asked<'a> {
    pub first: i64,
    pub count: i64,
    pub tai: &'a [i64],
}

// Whether bytes are digits, one at least and 18 at most: every such number fits 64 bits, with either sign.
#[tactic(auto, unfolding(crate::specs::Words::few_digits_rule))]
fn few_digits(s: &[u8]) -> bool
    ensures { result ≡ few_digits_rule s.now }
{
    (1..=18).contains(&s.len()) && all_digits(s)
}

// The whole number that bytes say, if they say one.
fn number_in(s: &[u8]) -> Option<i64>
    ensures { result ≡ parsed_of s.now }
{
    let digits = past_minus(s);
    if !few_digits(digits) {
        return None;
    }
    Some(with_sign(is_minus(s), read_natural(digits)))
}

// Puts a number into place n, if there is such a place; the next one. No heap, so no Vec: the count stands beside the places.
fn keep(numbers: &mut [i64], n: usize, z: i64) -> usize
    ensures { result ≤ length numbers.new }
{
    if numbers.len() <= n {
        return numbers.len();
    }
    numbers[n] = z;
    n + 1
}

// Reads all words to numbers, and keeps as many as there are places for: how many, or which word is no whole number, counted from 1. A
// word that is longer than a sign and 18 digits is none.
pub(crate) fn read_words<E: Env>(env: &E, numbers: &mut [i64]) -> Result<usize, usize>
    ensures { IfOk result (λ n. n ≤ length numbers.new) }
{
    let mut kept: usize = 0;
    for i in 1..usize::MAX {
        let mut room = [0u8; 19];
        let bytes = match env.arg(i, &mut room) {
            Ok(n) => n,
            Err(FillError::TooLong) => 0,
            Err(FillError::NotPresent) => break,
        };
        let z = number_in(&room[..bytes]).ok_or(i)?;
        kept = keep(numbers, kept, z);
    }
    Ok(kept)
}

// What the words should be, and the first that is none.
pub(crate) fn say_usage(wrong: Option<usize>) {
    say(b"days: ");
    if let Some(i) = wrong {
        say(b"word ");
        say_natural(i as u64);
        say(b" is no whole number of at most 18 digits; ");
    }
    say(b"usage: ./days FIRST COUNT TAI.. < FILE\n");
}
