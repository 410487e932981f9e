// The names that stand at places of lent bytes, and the order of places by them.
#![tactic(auto)]

pub mod name;
mod text;
