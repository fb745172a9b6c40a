// Document 01, "Marked days and figures", and document 02's marked days: one theorem about the definitions of the crates below. The
// statement stands in specs/MarkedFigures.antt and the proof in proofs/MarkedFigures.antt; there is no code.
#![tactic(auto)]
