// What a caller who steps until the end is handed: theorems about `start` and `iter`, and no code. See specs/Iteration.antt.
#![tactic(auto)]
