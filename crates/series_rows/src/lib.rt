// The rows of a period's days: date, count and Wh of each (document 01, "The program"; document 02, (e)). Definitions and theorems: the
// rows add up, and those of two periods join. There is no code.
#![tactic(auto)]
