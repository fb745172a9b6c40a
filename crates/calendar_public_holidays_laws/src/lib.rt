// Theorems about the holiday list of a year (document 02, (a)): which dates it has, in which order, how many, that it has no 24 or 31
// December, nor the lists of several years, and that it passes question 9. The statements stand in specs/List.antt and the proofs in
// proofs/, with a law for the lists of several years; there is no code.
#![tactic(auto)]
