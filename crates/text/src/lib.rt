// Bytes and text: numbers of eight bytes, bytes copied, decimals written and read, lines, and lines of numbers.
#![tactic(auto)]

pub mod bytes;
pub mod decimal;
pub mod lines;
pub mod table;
pub mod words;
