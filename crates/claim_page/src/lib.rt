// Theorems about the day page (document 02, (e)): what is read back from the page of every accepted call, that the widths are enough,
// which questions are asked, and lines worked out. There is no code.
#![tactic(auto)]
