// The theorem that a page has room for what the program prints, whatever its input. There is no code.
#![tactic(auto)]
