// Theorem: what the two roundings of the dynamisation cost. There is no code.
#![tactic(auto)]
