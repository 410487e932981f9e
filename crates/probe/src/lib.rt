// What the search reads at a probe: where the record starts, and its name by the shape of its first line.
#![tactic(auto)]

pub mod shape;
pub mod start;
