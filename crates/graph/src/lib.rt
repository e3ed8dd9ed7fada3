// The argument about runs, over any graph: definitions and theorems alone, no code.
// Nothing here knows what a word is.
#![tactic(auto)]
