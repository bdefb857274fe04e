// For whoever relies on it that zooms nest: why they do. proofs/OneNumber.antt says what one number per
// point decides. There is no code here: the theorems are about the definitions of the crates beneath.
#![tactic(auto)]
