// The project's three demands, each a statement over what callers lend and get. Theorems and no code: see specs/Demands.antt.
#![tactic(auto)]
