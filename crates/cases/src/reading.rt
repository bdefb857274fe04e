// What the words of a case say; the call is at place 0. The form of the case is judged before (`forms`): a word of
// another kind is read as 0.
ghost use Rattle.std.specs.Prelude.{◌≤◌, length};

use crate::limits::ROOM;
use chart::Chart;
use point::{PointF64, PointI32};
use texts::Pen;

// A value that one word says: read, and put.
pub trait Value: Copy {
    // What a word is read as that says none.
    const NOTHING: Self;

    fn read(word: &[u8]) -> Option<Self>;

    // Puts it as a word says it.
    fn put(self, pen: &mut Pen);
}

// `1` is true, and any other word is false.
impl Value for bool {
    const NOTHING: bool = false;

    fn read(word: &[u8]) -> Option<bool> {
        Some(check::same(word, b"1"))
    }

    fn put(self, pen: &mut Pen) {
        pen.put_natural(u64::from(self));
    }
}

impl Value for usize {
    const NOTHING: usize = 0;

    fn read(word: &[u8]) -> Option<usize> {
        usize::try_from(words::read_natural(word)?).ok()
    }

    fn put(self, pen: &mut Pen) {
        pen.put_natural(self as u64);
    }
}

impl Value for i32 {
    const NOTHING: i32 = 0;

    fn read(word: &[u8]) -> Option<i32> {
        words::read_integer(word)
    }

    fn put(self, pen: &mut Pen) {
        pen.put_decimal(i64::from(self));
    }
}

impl Value for i64 {
    const NOTHING: i64 = 0;

    fn read(word: &[u8]) -> Option<i64> {
        match word.first() {
            Some(b'-') => 0i64.checked_sub_unsigned(words::read_natural(&word[1..])?),
            _ => i64::try_from(words::read_natural(word)?).ok(),
        }
    }

    fn put(self, pen: &mut Pen) {
        pen.put_decimal(self);
    }
}

// The 16 hexadecimal digits of its pattern.
impl Value for f64 {
    const NOTHING: f64 = 0.0;

    fn read(word: &[u8]) -> Option<f64> {
        Some(bits::from_bits(words::read_pattern(word)?))
    }

    fn put(self, pen: &mut Pen) {
        pen.put_hex(bits::to_bits(self), 16);
    }
}

// A value that two words say.
pub trait OfTwo {
    type Word: Value;

    fn of(first: Self::Word, second: Self::Word) -> Self;
}

impl OfTwo for PointI32 {
    type Word = i32;

    fn of(x: i32, y: i32) -> PointI32 {
        PointI32 { x, y }
    }
}

impl OfTwo for PointF64 {
    type Word = f64;

    fn of(x: f64, y: f64) -> PointF64 {
        PointF64 { x, y }
    }
}

impl OfTwo for Chart {
    type Word = usize;

    fn of(width: usize, height: usize) -> Chart {
        Chart { width, height }
    }
}

// What the word at place `k` says.
pub fn at<T: Value>(line: &[u8], k: usize) -> T {
    T::read(words::word(line, k)).unwrap_or(T::NOTHING)
}

// The pattern of a double, as its 64 bits.
pub fn pattern_at(line: &[u8], k: usize) -> u64 {
    words::read_pattern(words::word(line, k)).unwrap_or(0)
}

// What the two words from a place on say.
pub fn two_at<T: OfTwo>(line: &[u8], k: usize) -> T
    requires { k ≤ 8 }
{
    T::of(at(line, k), at(line, k + 1))
}

// As many of the places as the word at place `k` says, no more than can be lent.
pub fn room_at<'a, T>(line: &[u8], k: usize, places: &'a mut [T]) -> &'a mut [T]
    ensures { (length result.now ≤ 65536) × (length result.now ≤ length places.old) }
{
    let room = at::<usize>(line, k).min(ROOM).min(places.len());
    &mut places[..room]
}
