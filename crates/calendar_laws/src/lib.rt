// Theorems about the calendar: every date, its season and its day type, the positions of a day, and every period. There is no code.
#![tactic(auto)]
