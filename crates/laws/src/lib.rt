// For those who prove: the few words that the definitions of several crates are made of (specs/), and the laws on
// whole numbers, floats, bits and lists that their proofs cite (proofs/). No code.
#![tactic(auto)]
