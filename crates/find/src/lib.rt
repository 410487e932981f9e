// Lookup of one name in a checked body, and where a prefix iteration starts.
#![tactic(auto)]

pub mod lookup;
pub mod prefix_start;
