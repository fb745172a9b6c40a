// The public holidays of a year (document 02, (a)): the eleven federal and six regional days, and the holiday list that a choice makes of
// them. The definitions stand in specs/, laws about the list in proofs/InOrder.antt; there is no code.
#![tactic(auto)]
