// The edit list: edits one after another as bytes, and the index of their places in name order.
#![tactic(auto)]

pub mod list;
