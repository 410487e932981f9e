// What callers are told of lines: theorems about the replies, and no code. See specs/Told.antt.
#![tactic(auto)]
