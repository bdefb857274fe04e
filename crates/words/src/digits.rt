// A digit and its value, and the number that digits say.
ghost use Rattle.std.specs.Prelude.{◌≡◌, ◌<◌};
ghost use Rattle.words.specs.Digits.{digit_of};
ghost use Rattle.words.specs.inside.Numbers.{number_from};

// The value of a digit, in either case.
#[tactic(auto, unfolding(crate::specs::Digits::digit_of))]
pub fn digit(b: u8) -> Option<u8>
    ensures { result ≡ digit_of b }
{
    match b {
        b'0'..=b'9' => Some(b - b'0'),
        b'A'..=b'F' => Some(b - b'A' + 10),
        b'a'..=b'f' => Some(b - b'a' + 10),
        _ => None,
    }
}

// The number that any count of digits of a base say, where 64 bits hold it.
#[tactic(auto, using(crate::proofs::Numerals::digit_laws))]
pub(crate) fn read_digits<const BASE: u64>(word: &[u8]) -> Option<u64>
    requires { 0 < BASE }
    ensures { result ≡ number_from BASE 0 word.now }
{
    let mut n = 0u64;
    for b in word {
        let d = u64::from(digit(*b)?);
        if BASE <= d {
            return None;
        }
        n = n.checked_mul(BASE)?.checked_add(d)?;
    }
    Some(n)
}
