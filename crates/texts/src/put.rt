// Text, put at a place of a buffer. What does not fit is not written, and the place stays.
ghost use Rattle.std.specs.Prelude.{◌≡◌, [], ◌∷◌, ◌+◌, ◌<◌, ◌≤◌, leb, length};
ghost use Rattle.texts.specs.Put.{held, put_by};
ghost use Rattle.texts.specs.Text.{low_digits, hex_text};

use crate::glyphs::glyph;

// A lent buffer and a place in it: what is put stands from the place on, and the place is behind it then.
#[derive(Drop)]
pub struct Pen<'a> {
    pub out: &'a mut [u8],
    pub at: usize,
}

impl<'a> Pen<'a> {
    // One byte.
    #[tactic(auto, using(crate::proofs::Puts::set_one), unfolding(crate::specs::Put::put))]
    pub fn put_byte(&mut self, b: u8)
        ensures put { held self.new ≡ put_by self.old (b ∷ []) }
        ensures same { self.new.out.ghost_name ≡ self.old.out.ghost_name }
    {
        if self.at < self.out.len() {
            self.out[self.at] = b;
            self.at += 1;
        }
    }

    // The bytes of a text.
    #[tactic(auto, unfolding(crate::specs::Put::put))]
    pub fn put_bytes(&mut self, text: &[u8])
        ensures put { held self.new ≡ put_by self.old text.now }
        ensures same { self.new.out.ghost_name ≡ self.old.out.ghost_name }
    {
        if self.has_room(text.len()) {
            let end = self.at + text.len();
            copy(text, &mut self.out[self.at..end]);
            self.at = end;
        }
    }

    // The lowest `digits` hexadecimal digits of `n`, in lower case, 16 of them at most.
    pub fn put_hex(&mut self, n: u64, digits: usize)
        ensures put { held self.new ≡ put_by self.old (hex_text digits n) }
        ensures same { self.new.out.ghost_name ≡ self.old.out.ghost_name }
    {
        self.put_digits(n, 16, digits.min(16));
    }

    // Whether `n` bytes fit.
    pub(crate) fn has_room(&self, n: usize) -> bool
        ensures { result ≡ leb (self.now.at + n) (length self.now.out.now) }
    {
        self.at <= self.out.len() && n <= self.out.len() - self.at
    }

    // The lowest `k` digits of `n` in a base.
    #[tactic(auto, using(crate::proofs::Puts::length_low_digits), unfolding(crate::specs::Put::put))]
    pub(crate) fn put_digits(&mut self, n: u64, base: u64, k: usize)
        requires { (0 < base) × (base ≤ 16) }
        ensures put { held self.new ≡ put_by self.old (low_digits base k n) }
        ensures same { self.new.out.ghost_name ≡ self.old.out.ghost_name }
    {
        if self.has_room(k) {
            let end = self.at + k;
            spell(n, base, &mut self.out[self.at..end]);
            self.at = end;
        }
    }
}

// Copies a text over a part that is as long, byte by byte: `copy_from_slice` calls memmove, and the archive for C
// calls memset alone.
fn copy(text: &[u8], part: &mut [u8])
    requires { length text.now ≡ length part.old }
    ensures { part.new ≡ text.now }
{
    for i in 0..part.len() {
        part[i] = text[i];
    }
}

// Fills `out` with the lowest digits of `n`, the last of them first.
pub(crate) fn spell(n: u64, base: u64, out: &mut [u8])
    requires { (0 < base) × (base ≤ 16) }
    ensures { out.new ≡ low_digits base (length out.old) n }
{
    let mut rest = n;
    for i in (0..out.len()).rev() {
        out[i] = glyph(rest % base);
        rest /= base;
    }
}
