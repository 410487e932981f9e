// One merge, a theorem about `merge`, `checks` and `find`: what the check of the file that it writes and the lookups in it give. No code; see specs/OneMerge.antt.
#![tactic(auto)]
