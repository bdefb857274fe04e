// A number of decimal digits, read from a word.
ghost use Rattle.std.specs.Prelude.{◌≡◌};
ghost use Rattle.words.specs.Decimal.{natural_of, integer_of};

use crate::digits::read_digits;

// A number of decimal digits, zeros in front of it or not, that 64 bits hold.
#[tactic(auto, unfolding(crate::specs::inside::Numbers::number_from))]
pub fn read_natural(word: &[u8]) -> Option<u64>
    ensures { result ≡ natural_of word.now }
{
    if word.is_empty() {
        return None;
    }
    read_digits::<10>(word)
}

// A number of decimal digits, zeros in front of it or not, and a minus sign or not, that 32 bits hold.
pub fn read_integer(word: &[u8]) -> Option<i32>
    ensures { result ≡ integer_of word.now }
{
    if let [b'-', digits @ ..] = word {
        let n = i64::try_from(read_natural(digits)?).ok()?;
        return i32::try_from(-n).ok();
    }
    i32::try_from(read_natural(word)?).ok()
}
