// Demand 3, a theorem about `iter` and `checks`: damage to a checked file stays local. See specs/Damage.antt.
#![tactic(auto)]
