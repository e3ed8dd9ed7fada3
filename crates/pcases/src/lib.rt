// No code: specs/Cases.antt has document 01's P cases, over the definitions of all layers, and
// proofs/Cases.antt their one theorem.
#![tactic(auto)]
