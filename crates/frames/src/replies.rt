// An answer line, put by a pen as a whole: where it does not fit, nothing is written and the place stays.
ghost use Rattle.std.specs.Prelude.{◌≡◌, ◌+◌, ◌*◌, ◌<◌, ◌≤◌, leb, length};
ghost use Rattle.texts.specs.Put.{held, put_by};
ghost use Rattle.point.specs.Refusals.{number_of, count_of};
ghost use Rattle.frames.specs.Replies.{points_text, numbers_text, counted_text, head};

use point::{Refusal, number};
use texts::Pen;

// How many digits stand before the values.
const HEAD: usize = 8;

// An answer of points: x, y, x, y.
pub fn put_points(kind: u8, number: u8, values: &[i32], pen: &mut Pen)
    ensures put { held pen.new ≡ put_by pen.old (points_text kind number values.now) }
    ensures same { pen.new.out.ghost_name ≡ pen.old.out.ghost_name }
{
    if !fits(values.len(), 4, pen) {
        return;
    }
    put_head(kind, number, values.len() / 2, pen);
    for value in values {
        pen.put_hex(u64::from(value.cast_unsigned()), 4);
    }
}

// An answer of the first points of a buffer, as many as a call counted; refused, of none.
pub(crate) fn put_counted(kind: u8, answer: Result<usize, Refusal>, values: &[i32], pen: &mut Pen)
    requires { count_of answer * 2 ≤ length values.now }
    ensures put { held pen.new ≡ put_by pen.old (counted_text kind (number_of answer) (count_of answer) values.now) }
    ensures same { pen.new.out.ghost_name ≡ pen.old.out.ghost_name }
{
    let count = answer.unwrap_or(0);
    put_points(kind, number(answer), &values[..count * 2], pen);
}

// An answer of numbers. No one function puts both: the trait that it needs, of how many digits a value has and of
// its bits, with an `impl` for each type, is longer than these two.
pub fn put_numbers(kind: u8, number: u8, values: &[f64], pen: &mut Pen)
    ensures put { held pen.new ≡ put_by pen.old (numbers_text kind number values.now) }
    ensures same { pen.new.out.ghost_name ≡ pen.old.out.ghost_name }
{
    if !fits(values.len(), 16, pen) {
        return;
    }
    put_head(kind, number, values.len(), pen);
    for value in values {
        pen.put_hex(bits::to_bits(*value), 16);
    }
}

// Whether the digits before `n` values, and `each` for every value, fit.
fn fits(n: usize, each: usize, pen: &Pen) -> bool
    requires { 0 < each }
    ensures { result ≡ leb (pen.now.at + (8 + n * each)) (length pen.now.out.now) }
{
    if pen.out.len() < pen.at {
        return false;
    }
    let room = pen.out.len() - pen.at;
    HEAD <= room && n <= (room - HEAD) / each
}

// The digits before the values, for which there is room.
fn put_head(kind: u8, number: u8, count: usize, pen: &mut Pen)
    requires { pen.old.at + 8 ≤ length pen.old.out.now }
    ensures put { held pen.new ≡ put_by pen.old (head kind number count) }
    ensures same { pen.new.out.ghost_name ≡ pen.old.out.ghost_name }
{
    pen.put_hex(u64::from(kind) + 128, 2);
    pen.put_hex(u64::from(number), 2);
    pen.put_hex(count as u64, 4);
}
