// A double and its 64 bits, for whoever works on the bits or hands them on: the square root and the
// frames. The language leaves both ways open at a NaN; here a NaN has one pattern of its own, and every
// NaN pattern is read as the one NaN.
//
// Nothing here fails, for any of the 2^64 patterns or any f64.
#![tactic(auto)]

ghost use Rattle.std.specs.Prelude.{◌≡◌};
ghost use Rattle.std.specs.Float.{binary64};
ghost use Rattle.std.specs.Float.Ieee.{to_bits, of_bits};

use std::num::{f64_from_bits_with_nan, f64_to_bits_with_nan};

// The pattern of every NaN that is handed out.
pub const NAN: u64 = 0x7ff8_0000_0000_0000;

// The pattern of +infinity. Without the sign, what is above it is a NaN's.
pub const INFINITY: u64 = 0x7ff0_0000_0000_0000;

// The weight of the sign.
pub const SIGN: u64 = 0x8000_0000_0000_0000;

// The bits of `x`; those of NAN for a NaN.
pub fn to_bits(x: f64) -> u64
    ensures { result ≡ to_bits binary64 x }
{
    f64_to_bits_with_nan(x)
}

// The double whose bits are `b`.
pub fn from_bits(b: u64) -> f64
    ensures { result ≡ of_bits binary64 b }
{
    f64_from_bits_with_nan(b)
}
