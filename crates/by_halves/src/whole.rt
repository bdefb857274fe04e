// A root in whole numbers, by halves: its leading quarter is found bit by bit, and then one division
// doubles the digits that are found, twice. One word holds the root so far, one what is left of the
// square.
ghost use Rattle.std.specs.Prelude.{◌+◌, ◌-◌, ◌*◌, ◌^◌, ◌<◌, ◌≤◌};
ghost use Rattle.sqrt.specs.inside.Whole.{NearestWhole, Found};

// The weight of the leading one of a significand's 53 digits, its root, and the root of that.
pub(crate) const LEADING: u64 = 0x10_0000_0000_0000;

const HALF: u64 = 0x400_0000;

const QUARTER: u64 = 0x2000;

// The whole part of a number's root, and what the number has above its square.
#[derive(Clone, Copy)]
struct Part {
    root: u64,
    left: u64,
}

// The whole number nearest to the root of the product of `n` and LEADING.
pub(crate) fn rounded_root(n: u64) -> u64
    requires { (2 ^ 52 ≤ n) × (n < 2 ^ 54) }
    ensures { NearestWhole (n * 2 ^ 52) result × (result ≤ 2 ^ 53) }
{
    let quarter = whole_root(n / HALF);
    let half = lengthen(quarter, QUARTER, n / QUARTER % QUARTER, n % QUARTER);
    let all = lengthen(half, HALF, 0, 0);
    let root = all.root;
    if root < all.left { root + 1 } else { root }
}

// The whole root of a number, from that of its leading digits: in base `b`, the two digits `high` and
// `low` follow. What is left, with `high`, is divided by twice the root: the quotient is the root's next
// digit, or one more than that.
fn lengthen(part: Part, b: u64, high: u64, low: u64) -> Part
    requires { (part.left ≤ 2 * part.root) × (part.root < 2 ^ 27) × (b ≤ 2 * part.root) × (b ≤ 2 ^ 26) × (high < b) × (low < b) }
    ensures { Found ((part.root * part.root + part.left) * (b * b) + high * b + low) result.root result.left 1 }
{
    let found = part.root;
    let rest = part.left * b + high;
    let twice = found * 2;
    let digit = rest / twice;
    lowered(found * b + digit, rest % twice * b + low, digit * digit)
}

// The whole root of the square of `root`, with `left` added and `square` taken off: it is `root`, or one
// less.
#[tactic(auto, using(crate::proofs::ByHalves::from_root))]
fn lowered(root: u64, left: u64, square: u64) -> Part
    requires { (root < 2 ^ 54) × (left ≤ 2 * root) × (square < 2 * root) }
    ensures { Found (root * root + left - square) result.root result.left 1 }
{
    if left < square {
        Part {
            root: root - 1,
            left: left + (root * 2 - 1) - square,
        }
    } else {
        Part {
            root,
            left: left - square,
        }
    }
}

// The whole root of `n`, bit by bit. Its leading bit is set, and the thirteen below are tried.
// (std's `isqrt` took twice the time of these thirteen turns on x86-64.)
fn whole_root(n: u64) -> Part
    requires { (2 ^ 26 ≤ n) × (n < 2 ^ 28) }
    ensures { Found n result.root result.left 1 }
{
    let mut root = QUARTER;
    let mut left = n - HALF;
    for k in (0u32..13).rev() {
        let bit = 1u64 << k;
        let next = (root * 2 + bit) * bit;
        if next <= left {
            root += bit;
            left -= next;
        }
    }
    Part { root, left }
}
