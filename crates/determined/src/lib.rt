// Document 01's "any two outcomes allowed are the same", a theorem for every public function: see specs/Outcomes.antt for what is stated, and the other files of specs/ for the functions.
#![tactic(auto)]
