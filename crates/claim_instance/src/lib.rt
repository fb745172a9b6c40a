// Document 01's listing cut in two, with a refused call between: a worked instance of demand 3. There is no code.
#![tactic(auto)]
