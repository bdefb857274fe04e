// A size of a picture, in decimal digits.
ghost use Rattle.std.specs.Prelude.{◌+◌, ◌-◌, ◌*◌, ◌≤◌, min, true, ◌≡◌, length, drop};
ghost use Rattle.pbm.specs.Header.{digit, begins, digits_from, size_in};
ghost use Rattle.pbm.specs.inside.Places.{size_of, size_at};

use crate::blanks::{behind, parted};
use crate::letters::digit;

// A size past this is out of range, whatever its other digits are.
const OVER: usize = 513;

// A size, and the place behind its digits.
#[derive(Clone, Copy)]
pub(crate) struct Size {
    pub value: usize,
    pub end: usize,
}

// Reads a size behind white space or comments.
pub(crate) fn read_size(file: &[u8], from: usize) -> Option<Size>
    ensures { result ≡ size_of file.now (size_in (drop from file.now)) }
{
    if !parted(file, from) {
        return None;
    }
    let at = behind(file, from);
    if !digit_at(file, at) {
        return None;
    }
    Some(digits(file, at))
}

fn digit_at(file: &[u8], at: usize) -> bool
    ensures { result ≡ begins digit (drop at file.now) }
{
    file.get(at).is_some_and(|b| digit(*b))
}

// Reads the digits from a place on, as many as there are.
fn digits(file: &[u8], from: usize) -> Size
    requires { from ≤ length file.now }
    ensures { result ≡ size_at file.now (digits_from 0 (drop from file.now)) }
{
    let mut value = 0;
    for i in from..file.len() {
        let b = file[i];
        if !digit(b) {
            return Size { value, end: i };
        }
        value = longer(value, b);
    }
    Size {
        value,
        end: file.len(),
    }
}

// A size with one digit more.
fn longer(value: usize, b: u8) -> usize
    requires { (value ≤ 513) × (digit b ≡ true) }
    ensures { result ≡ min (value * 10 + (b - 48)) 513 }
{
    (value * 10 + usize::from(b - b'0')).min(OVER)
}
