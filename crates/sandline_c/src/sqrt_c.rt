// Square roots, bit by bit: an interrupt with 512 bytes of stack may call them.
ghost use Rattle.std.specs.Prelude.{◌≡◌};
ghost use Rattle.std.specs.Float.{binary64};
ghost use Rattle.std.specs.Float.Ieee.{of_bits, to_bits};
ghost use Rattle.sqrt.specs.Root.{root_of};

// The square root of a double.
#[unsafe(no_mangle)]
pub extern "C" fn sandline_sqrt(x: f64) -> f64
    ensures { result ≡ root_of binary64 x }
{
    sqrt::sqrt(x)
}

// The bits of the square root of a double, from its bits.
#[unsafe(no_mangle)]
pub extern "C" fn sandline_sqrt_bits(b: u64) -> u64
    ensures { result ≡ to_bits binary64 (root_of binary64 (of_bits binary64 b)) }
{
    sqrt::sqrt_bits(b)
}
