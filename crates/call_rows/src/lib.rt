// The rows of a request's days, and the theorem that their figures are what expanding answers. There is no code.
#![tactic(auto)]
