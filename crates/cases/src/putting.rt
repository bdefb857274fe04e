// What an answer is made of: values and lists, each with a space behind it, and the end of the line, which takes the
// place of the last space.
//
// Nothing fails, and what does not fit is not written.
ghost use Rattle.std.specs.Prelude.{◌≤◌};

use crate::limits::{DOUBLE, INTEGER, ROOM, VALUES};
use crate::lists::values_at;
use crate::reading::{Value, room_at};
use point::{PointI32, Refusal};
use reduce::Counted;
use texts::Pen;

// What a call says.
pub trait Says {
    // Puts it, before what was lent.
    fn put_in(self, out: &mut Answer);
}

impl Says for () {
    fn put_in(self, _out: &mut Answer) {}
}

impl Says for usize {
    fn put_in(self, out: &mut Answer) {
        out.value(self);
    }
}

impl Says for Result<usize, Refusal> {
    fn put_in(self, out: &mut Answer) {
        out.count(self);
    }
}

// The number of an answer, its count of points and that of distances.
impl Says for Result<Counted, Refusal> {
    fn put_in(self, out: &mut Answer) {
        let counted = self.unwrap_or(Counted {
            points: 0,
            distances: 0,
        });
        out.number(self);
        out.value(counted.points);
        out.value(counted.distances);
    }
}

// What a lent buffer holds: values, or bytes.
pub trait Place: Sized {
    // Puts all that was lent.
    fn put_all(lent: &[Self], out: &mut Answer);
}

impl<T: Value> Place for T {
    fn put_all(lent: &[T], out: &mut Answer) {
        out.values(lent);
    }
}

impl Place for u8 {
    fn put_all(lent: &[u8], out: &mut Answer) {
        out.bytes(lent);
    }
}

// The pen that puts the answer to a case.
#[derive(Drop)]
pub struct Answer<'a> {
    pub pen: Pen<'a>,
}

impl<'a> Answer<'a> {
    // A word as it stands.
    pub fn word(&mut self, word: &[u8]) {
        self.pen.put_bytes(word);
        self.pen.put_byte(b' ');
    }

    // A value, as a word says it.
    pub fn value<T: Value>(&mut self, value: T) {
        value.put(&mut self.pen);
        self.pen.put_byte(b' ');
    }

    // The 16 hexadecimal digits of a pattern.
    pub fn pattern(&mut self, p: u64) {
        self.pen.put_hex(p, 16);
        self.pen.put_byte(b' ');
    }

    // The two coordinates of a point.
    pub fn point(&mut self, p: PointI32) {
        self.value(p.x);
        self.value(p.y);
    }

    // The number of an answer.
    pub fn number<T: Copy>(&mut self, answer: Result<T, Refusal>) {
        self.value(usize::from(point::number(answer)));
    }

    // The number of an answer, and its count.
    pub fn count(&mut self, answer: Result<usize, Refusal>) {
        self.number(answer);
        self.value(answer.unwrap_or(0));
    }

    // Calls with the list at place `k` of a line and the room behind it for integers.
    pub fn kept<R, F>(&mut self, line: &[u8], k: usize, call: F)
    where
        R: Says,
        F: FnOnce(&[i32], &mut [i32]) -> R,
        requires room { k ≤ 8 }
        requires callable { F.IsAlwaysCallable call }
    {
        let mut places = [INTEGER; ROOM];
        self.lent(line, k, &mut places, call);
    }

    // Calls with the list behind the name and the room for its numbers.
    pub fn numbered<R, F>(&mut self, line: &[u8], call: F)
    where
        R: Says,
        F: FnOnce(&[i32], &mut [f64]) -> R,
        requires callable { F.IsAlwaysCallable call }
    {
        let mut places = [DOUBLE; ROOM];
        self.lent(line, 1, &mut places, call);
    }

    // Calls with the list at place `k` of a line and, of these places, the room behind it. Puts what the call says, and
    // what was lent. (A function for each kind makes the places: that an array of any `T` fits, nothing tells.)
    pub fn lent<T, R, F>(&mut self, line: &[u8], k: usize, places: &mut [T], call: F)
    where
        T: Place,
        R: Says,
        F: FnOnce(&[i32], &mut [T]) -> R,
        requires room { k ≤ 8 }
        requires callable { F.IsAlwaysCallable call }
    {
        let mut list = [0i32; VALUES];
        let points = values_at(line, k, &mut list);
        let room = room_at(line, k + 1, places);
        call(points, room).put_in(self);
        T::put_all(room, self);
    }

    // Values, a comma between each two.
    pub fn values<T: Value>(&mut self, values: &[T]) {
        let from = self.pen.at;
        for value in values {
            value.put(&mut self.pen);
            self.pen.put_byte(b',');
        }
        self.end_with(b' ', b"- ", from);
    }

    // Bytes, each as two hexadecimal digits, with nothing between them.
    pub fn bytes(&mut self, values: &[u8]) {
        if values.is_empty() {
            self.word(b"-");
            return;
        }
        for value in values {
            self.pen.put_hex(u64::from(*value), 2);
        }
        self.pen.put_byte(b' ');
    }

    // Ends the line that stands from a place on. Where nothing stands there, the line is `bad line`.
    pub fn end_line(&mut self, from: usize) {
        self.end_with(b'\n', b"bad line\n", from);
    }

    // Ends what stands from a place on: `mark` takes the place of its last byte. Where nothing stands there, `none` does.
    fn end_with(&mut self, mark: u8, none: &[u8], from: usize) {
        let pen = &mut self.pen;
        if from < pen.at && pen.at <= pen.out.len() {
            pen.out[pen.at - 1] = mark;
            return;
        }
        pen.at = from;
        pen.put_bytes(none);
    }
}
