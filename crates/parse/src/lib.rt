// What every layer reads bytes with: line ends, parts, kinds and limits.
#![tactic(auto)]

pub mod limit;
pub mod line;
pub mod part;
pub mod scan;
