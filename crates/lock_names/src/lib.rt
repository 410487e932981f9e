// What becomes of a name that has a component ending in `.lock`, wherever it stands. Theorems and no code: see specs/LockNames.antt.
#![tactic(auto)]
