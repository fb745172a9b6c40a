// What is said of lists: sums, properties of every member, places at a stride, stores. Definitions and laws; there is no code.
#![tactic(auto)]
