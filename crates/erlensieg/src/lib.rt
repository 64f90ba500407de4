// The library for C: one thin export for each public call, with the call's own promise. include/erlensieg.h describes them for a C programmer.
#![tactic(auto)]

pub mod angles;
pub mod delays;
pub mod files;
pub mod rows;
pub mod tracks;
