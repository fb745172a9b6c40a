// Demand 3 of document 00: one theorem about any list of expanding calls. There is no code.
#![tactic(auto)]
