// One record of a packed-refs file, read from the front of lent bytes.
//
// A file is an optional header line and a body of records in name order:
//
//     # pack-refs with: peeled fully-peeled sorted
//     1111111111111111111111111111111111111111 refs/sent/ward4/o118/e3
//     2222222222222222222222222222222222222222 refs/tags/night
//     ^3333333333333333333333333333333333333333
//
// A record is an id, one space, a valid name and a line end (LF or CR LF); a line that begins with ^ belongs to the
// record before it and holds the id that a tag points at.
#![tactic(auto)]

pub mod reference;
