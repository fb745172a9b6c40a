// Document 02, (a): the worked years, and "Every list given passes question 9.", said of the call that gives a list, and of expanding, the
// day page, the deliveries, the program and the day enquiry, which are given it. The statements stand in specs/, their proofs in proofs/ by
// the same names; there is no code.
#![tactic(auto)]
