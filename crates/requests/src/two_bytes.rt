// Numbers of two bytes, the higher first.
ghost use Rattle.std.specs.Prelude.{◌≡◌, ◌+◌, ◌/◌, ◌<◌, ◌≤◌, length};
ghost use Rattle.laws.specs.Lists.{over};
ghost use Rattle.requests.specs.Frame.{word_at, signed, values_of};

// The number at a place.
pub(crate) fn word(bytes: &[u8], k: usize) -> u16
    requires { k + 1 < length bytes.now }
    ensures { result ≡ word_at bytes.now k }
{
    u16::from_be_bytes([bytes[k], bytes[k + 1]])
}

// The number at a place, read as a signed one.
pub(crate) fn signed_word(bytes: &[u8], k: usize) -> i32
    requires { k + 1 < length bytes.now }
    ensures { result ≡ signed (word_at bytes.now k) }
{
    i32::from(word(bytes, k).cast_signed())
}

// Puts the signed numbers of some bytes at the start of `to`, and answers how many.
#[tactic(auto, using(crate::proofs::Values::one_put))]
pub(crate) fn decode(bytes: &[u8], to: &mut [i32]) -> usize
    requires { length bytes.now / 2 ≤ length to.old }
    ensures { (result ≡ length (values_of bytes.now)) × (result ≤ length to.new)
        × (to.new ≡ over (values_of bytes.now) to.old) }
{
    let n = bytes.len() / 2;
    for i in 0..n {
        to[i] = signed_word(bytes, i * 2);
    }
    n
}
