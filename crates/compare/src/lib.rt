// Comparing byte strings: their order, and whether one begins with another.
#![tactic(auto)]

pub mod order;
pub mod prefix;
