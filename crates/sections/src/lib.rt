// The session file's bytes: its words, its layouts as one table, and the four tests of a file. Document 01, 'Session file'.
#![tactic(auto)]

pub mod contents;
pub mod layouts;
pub mod order;
pub mod ranges;
mod session;

pub use session::Session;
