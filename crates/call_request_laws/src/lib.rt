// Theorems about an accepted request's series: its figures and total fit, and how long it is at most. There is no code.
#![tactic(auto)]
