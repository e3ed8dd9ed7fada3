// No code: specs/Patches.antt says which words of a function may change, and proofs/Patches.antt
// proves it (request C-23).
#![tactic(auto)]
