// Theorems about a period's quarter hours: periods join, how many they are, and their X. There is no code.
#![tactic(auto)]
