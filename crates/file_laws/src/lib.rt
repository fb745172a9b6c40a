// Theorems about the profile file: what is written reads back, and an accepted file is rewritten to the same bytes. There is no code.
#![tactic(auto)]
