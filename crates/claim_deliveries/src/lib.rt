// Document 02, (c): a theorem about every accepted call for over and under deliveries, and reading periods worked out. There is no code.
#![tactic(auto)]
