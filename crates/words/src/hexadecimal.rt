// A number of hexadecimal digits, read from a word.
ghost use Rattle.std.specs.Prelude.{◌≡◌};
ghost use Rattle.words.specs.Hexadecimal.{hex_of, pattern_of};

use crate::digits::read_digits;

// A number of 1 to 16 hexadecimal digits, in either case.
#[tactic(auto, using(crate::proofs::Numerals::hexadecimal), unfolding(crate::specs::Hexadecimal::hex_of))]
pub fn read_hex(word: &[u8]) -> Option<u64>
    ensures { result ≡ hex_of word.now }
{
    if word.is_empty() || 16 < word.len() {
        return None;
    }
    read_digits::<16>(word)
}

// The 64 bits of a pattern of exactly 16 hexadecimal digits, in either case.
pub fn read_pattern(word: &[u8]) -> Option<u64>
    ensures { result ≡ pattern_of word.now }
{
    if word.len() != 16 {
        return None;
    }
    read_hex(word)
}
