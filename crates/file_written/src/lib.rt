// The profile file that writing makes of codes and values (document 01, "The profile file"): its definition, and what stands where in
// it. There are no functions.
#![tactic(auto)]
