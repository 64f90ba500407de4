// What the programs share: standard input, words for people on standard error, and how a run ends.
#![tactic(auto)]

pub mod ending;
pub mod input;
pub mod say;
pub mod section;
