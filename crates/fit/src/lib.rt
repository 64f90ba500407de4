// Lines through runs of samples: whether some whole-number offset and rate fit a run, how long a run can be, and its least rate and offset.
// Document 01, 'Track'. See specs/Line.antt for what a fit is, and specs/Rates.antt for the numbers that the code works with.
#![tactic(auto)]

pub mod chain;
pub mod line;
pub mod run;
pub mod samples;
