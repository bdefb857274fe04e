// The square root, bit by bit: one word holds the root so far, one what is left of the square. Nothing is
// divided but by powers of two, which is a shift, and no table is read.
ghost use Rattle.std.specs.Prelude.{◌≡◌, ◌+◌, ◌*◌, ◌^◌, ◌<◌, ◌≤◌};
ghost use Rattle.std.specs.Float.{binary64};
ghost use Rattle.std.specs.Float.Ieee.{to_bits};
ghost use Rattle.sqrt.specs.inside.Whole.{NearestWhole};
ghost use Rattle.sqrt.specs.Root.{nearest_root, root_of, root_bits};

// The weight of the leading one of a significand's 53 digits.
const LEADING: u64 = 0x10_0000_0000_0000;

// The square root of `x`.
#[tactic(auto, using(crate::proofs::nearest::RootFits::through_bits))]
pub fn sqrt(x: f64) -> f64
    ensures { result ≡ root_of binary64 x }
{
    bits::from_bits(sqrt_bits(bits::to_bits(x)))
}

// The bits of the square root of the double whose bits are `b`. A zero and +infinity are their own
// roots; the root of a NaN, or of anything below zero, is NAN.
#[tactic(auto, using(crate::proofs::nearest::Normal::of_patterns))]
pub fn sqrt_bits(b: u64) -> u64
    ensures { result ≡ root_bits b }
{
    if b % bits::SIGN == 0 {
        return b;
    }
    if b == bits::INFINITY {
        return bits::INFINITY;
    }
    if bits::INFINITY < b {
        return bits::NAN;
    }
    let field = b >> 52;
    let digits = b % LEADING;
    if field == 0 {
        return subnormal_root(digits);
    }
    normal_root(LEADING + digits, field + 1021)
}

// The bits of the root of `digits` times 2^-1074, the smallest double.
fn subnormal_root(digits: u64) -> u64
    requires { (0 < digits) × (digits < 2 ^ 52) }
    ensures { result ≡ to_bits binary64 (nearest_root binary64 (digits * 2 ^ 1074)) }
{
    let up = digits.leading_zeros() - 11;
    normal_root(digits << up, 1022 - u64::from(up))
}

// The bits of the root of `m` times 2^(`e` - 2096), where `m` has all its digits.
#[tactic(auto, using(crate::proofs::nearest::Normal::shifts))]
fn normal_root(m: u64, e: u64) -> u64
    requires { (2 ^ 52 ≤ m) × (m < 2 ^ 53) × (e ≤ 3067) }
    ensures { result ≡ to_bits binary64 (nearest_root binary64 (m * 2 ^ (e + 52))) }
{
    (e >> 1) * LEADING + rounded_root(m << (e % 2))
}

// The whole number nearest to the root of the product of `n` and LEADING. The root's leading bit is set,
// and the 52 below are tried, one after the other. `twice` is twice the root so far; `left` is what the
// product has above its square, in units of the bit that was tried last.
#[tactic(auto, using(crate::proofs::whole::BitByBit::tries))]
fn rounded_root(n: u64) -> u64
    requires { (2 ^ 52 ≤ n) × (n < 2 ^ 54) }
    ensures { NearestWhole (n * 2 ^ 52) result × (result ≤ 2 ^ 53) }
{
    let mut twice = LEADING * 2;
    let mut left = n - LEADING;
    let mut bit = LEADING;
    // No `for`: with `1 << k` it is slower on a Cortex-M0+, and a counter beside `bit` is no plainer.
    while 1 < bit {
        bit >>= 1;
        left *= 2;
        let next = twice + bit;
        if next <= left {
            twice = next + bit;
            left -= next;
        }
    }
    let root = twice >> 1;
    if root < left { root + 1 } else { root }
}
