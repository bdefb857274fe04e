// The square root of a double, worked out from its bits, for whoever has little stack to spare, such as
// an interrupt; and, passed on, a double's bits. `by_halves` has the same root for lengths and penalties,
// in fewer instructions and more stack.
//
// Every answer is the root as IEEE 754 asks for it: the value nearest to the exact root; no root lies
// halfway between two. Nothing here fails, for any of the 2^64 patterns or any f64.
#![tactic(auto)]

mod root;

pub use bits::{from_bits, to_bits};
pub use root::{sqrt, sqrt_bits};
