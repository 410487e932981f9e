// The functions of `host` under their names for C: each is exported, calls the one there and has its clauses. include/packed_refs.h declares them.
//
// A crate is a library or a static library, not both: other crates call `host`, and this one is linked as libhost.a (./libhost).
#![tactic(auto)]

pub mod read;
pub mod write;
