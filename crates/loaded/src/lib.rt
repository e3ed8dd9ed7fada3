// No code: specs/Loaded.antt says that what is filled from a chunk can be lifted, and proofs/Loaded.antt
// proves it (request C-11).
#![tactic(auto)]
