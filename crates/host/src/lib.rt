// What C and Rust call: the functions of include/packed_refs.h, which declares them for C. The crate host_c exports each of them to C, under its name and
// with its clauses.
//
// Lent bytes come as a pointer and a length, which stand for `&[u8]`. An answer comes back by value, as a struct of numbers,
// which a crate of replies makes (`reply_file`, `reply_lookup`, `reply_loose`, `reply_merge`): here are only the names.
// For C a refusal and a missing place are numbers; behind this crate they are a Result and an Option. An id's kind is a number all the way.
#![tactic(auto)]

pub mod read;
pub mod write;
