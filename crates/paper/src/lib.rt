// Document 01's examples that are marked P, proved of the definitions as a single statement over one list: see specs/Cases.antt. Further cases of lookup stand in specs/Lookups.antt.
#![tactic(auto)]
