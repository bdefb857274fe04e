// Decimal numbers, put at a place of a buffer.
ghost use Rattle.std.specs.Prelude.{◌≡◌, ◌∷◌, ◌≤◌, length};
ghost use Rattle.texts.specs.Put.{held, put_by};
ghost use Rattle.texts.specs.Text.{natural_text, decimal_text};

use crate::put::{Pen, spell};

impl<'a> Pen<'a> {
    // The digits of `n`, with no zero in front, and behind a minus sign where `n` is below zero.
    pub fn put_decimal(&mut self, n: i64)
        ensures put { held self.new ≡ put_by self.old (decimal_text n) }
        ensures same { self.new.out.ghost_name ≡ self.old.out.ghost_name }
    {
        let m = n.unsigned_abs();
        if n < 0 {
            self.put_negative(m);
        } else {
            self.put_natural(m);
        }
    }

    // The digits of `n`, with no zero in front.
    #[tactic(auto, using(crate::proofs::Puts::decimal_low))]
    pub fn put_natural(&mut self, n: u64)
        ensures put { held self.new ≡ put_by self.old (natural_text n) }
        ensures same { self.new.out.ghost_name ≡ self.old.out.ghost_name }
    {
        self.put_digits(n, 10, places(n));
    }

    // The digits of `n` behind a minus sign.
    #[tactic(auto, unfolding(crate::specs::Put::put))]
    fn put_negative(&mut self, n: u64)
        ensures put { held self.new ≡ put_by self.old (45 ∷ natural_text n) }
        ensures same { self.new.out.ghost_name ≡ self.old.out.ghost_name }
    {
        let k = places(n) + 1;
        if self.has_room(k) {
            let end = self.at + k;
            self.out[self.at] = b'-';
            spell(n, 10, &mut self.out[self.at + 1..end]);
            self.at = end;
        }
    }
}

// How many decimal digits a number has: counted, since `ilog10` reads a table, and the archive for C has no data.
fn places(n: u64) -> usize
    ensures { (result ≡ length (natural_text n)) × (result ≤ 20) }
{
    let mut k = 1;
    let mut rest = n;
    while 10 <= rest {
        rest /= 10;
        k += 1;
    }
    k
}
