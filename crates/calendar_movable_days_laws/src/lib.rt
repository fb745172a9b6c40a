// A theorem about the days that move (document 02, (a)): where Easter and the Day of Repentance fall. The statement stands in
// specs/Falls.antt and the proof in proofs/Falls.antt; there is no code.
#![tactic(auto)]
