// The square root for lengths and penalties, by halves: two divisions find most of its bits. The answers
// are those of `sqrt`, bit for bit, in fewer instructions and more stack.
//
// Nothing here fails, for any f64.
#![tactic(auto)]

ghost use Rattle.std.specs.Prelude.{◌≡◌, ◌^◌, ◌<◌, ◌≤◌};
ghost use Rattle.std.specs.Float.{binary64};
ghost use Rattle.sqrt.specs.Root.{root_of, root_bits};

mod whole;

use crate::whole::{LEADING, rounded_root};

// The square root of `x`. A zero is its own root, and all else but a normal number above zero is left to
// `sqrt`.
pub fn sqrt(x: f64) -> f64
    ensures { result ≡ root_of binary64 x }
{
    let b = bits::to_bits(x);
    if b % bits::SIGN == 0 {
        return x;
    }
    if (b < LEADING) | (bits::INFINITY <= b) {
        return sqrt::sqrt(x);
    }
    bits::from_bits(normal_root(b))
}

// The bits of the root of a normal double above zero, from its bits.
#[tactic(auto, using(sqrt::proofs::nearest::Normal::shifts))]
fn normal_root(b: u64) -> u64
    requires { (2 ^ 52 ≤ b) × (b < 0x7ff0000000000000) }
    ensures { result ≡ root_bits b }
{
    let e = b / LEADING + 1021;
    e / 2 * LEADING + rounded_root((LEADING + b % LEADING) << (e % 2))
}
