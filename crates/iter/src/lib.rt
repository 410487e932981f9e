// Iteration over a file's records.
#![tactic(auto)]

pub mod step;
