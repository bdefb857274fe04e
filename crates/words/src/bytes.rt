// Bytes in one text, each as two hexadecimal digits, read to the start of a buffer that the caller
// lends: all of them, or none.
//
// Nothing fails: where the word says no bytes, or there is no room for all, the answer is `None`, and
// nothing is written.
ghost use Rattle.std.specs.Prelude.{◌≡◌, length};
ghost use Rattle.words.specs.Bytes.{is_dash, pair_of, bytes_of, pairs_of, read_into};
ghost use Rattle.words.specs.inside.Bytes.{count_of, laid, Room};

use crate::digits::digit;

// Whether a word is `-`, a list of no values.
pub fn is_dash(word: &[u8]) -> bool
    ensures { result ≡ is_dash word.now }
{
    matches!(word, [b'-'])
}

// Reads the bytes of a word to the start of `to`, and answers how many there are. Where the count of
// digits is odd, or something else stands between them, or there is no room for all, it writes nothing.
#[tactic(auto, unfolding(crate::specs::Bytes::bytes_of))]
pub fn read_bytes(word: &[u8], to: &mut [u8]) -> Option<usize>
    ensures { record { answer = result; out = to.new } ≡ read_into (bytes_of word.now) to.old }
{
    let n = count_bytes(word)?;
    if to.len() < n {
        return None;
    }
    write_bytes(word, to);
    Some(n)
}

// Reads the bytes of a word to the start of `to`, as `read_bytes` does; here the word of no bytes is `-`,
// and an empty word is none.
#[tactic(auto, using(laws::proofs::Lists::over_nil))]
pub fn read_pairs(word: &[u8], to: &mut [u8]) -> Option<usize>
    ensures { record { answer = result; out = to.new } ≡ read_into (pairs_of word.now) to.old }
{
    if is_dash(word) {
        return Some(0);
    }
    if word.is_empty() {
        return None;
    }
    read_bytes(word, to)
}

// How many bytes a word says, if it says bytes.
fn count_bytes(word: &[u8]) -> Option<usize>
    ensures { result ≡ count_of (bytes_of word.now) }
{
    if word.len() % 2 != 0 {
        return None;
    }
    for digits in word.chunks_exact(2) {
        pair(digits[0], digits[1])?;
    }
    Some(word.len() / 2)
}

// Stores the bytes that a word says.
fn write_bytes(word: &[u8], to: &mut [u8])
    requires { Room (bytes_of word.now) 0 (length to.old) }
    ensures { to.new ≡ laid (bytes_of word.now) to.old }
{
    for n in 0..word.len() / 2 {
        to[n] = pair(word[n * 2], word[n * 2 + 1]).unwrap();
    }
}

// The byte that two digits say, the higher first.
#[tactic(auto, using(crate::proofs::Numerals::digit_small), unfolding(crate::specs::Bytes::pair_of))]
fn pair(high: u8, low: u8) -> Option<u8>
    ensures { result ≡ pair_of high low }
{
    let high = digit(high)?;
    let low = digit(low)?;
    Some(high * 16 + low)
}
