// The replies to the lookups: one name, the names with a prefix, and one name in bytes that nobody checked.
#![tactic(auto)]

pub mod asked;
pub mod lookup;
pub mod prefix;
