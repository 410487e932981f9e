// The replies about a whole file: its header, its iteration, its check; and the rules of a name.
#![tactic(auto)]

pub mod head;
pub mod verdict;
pub mod walk;
