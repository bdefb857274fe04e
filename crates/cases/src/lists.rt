// The values of the list at place `k` of a line, read to the start of a lent buffer, as far as they are values and there is
// room. `values_at` and `bytes_at` answer those that were read. The form of the list is judged before (`forms`).
ghost use Rattle.std.specs.Prelude.{◌+◌, ◌≤◌, length};

use crate::reading::Value;

// Values, a comma between each two.
pub fn values_at<'a, T: Value>(line: &[u8], k: usize, to: &'a mut [T]) -> &'a [T]
    ensures { length result.now ≤ length to.old }
{
    let text = words::word(line, k);
    let mut n = 0;
    let mut at = 0;
    for i in 0..to.len() {
        if text.len() < at {
            break;
        }
        let word = value_at(text, at);
        let Some(value) = T::read(word) else {
            break;
        };
        to[i] = value;
        n = i + 1;
        at += word.len() + 1;
    }
    &to[..n]
}

// The value that begins at a place of a list.
#[tactic(auto, using(words::proofs::Splits::find_le))]
pub fn value_at<'a>(text: &'a [u8], at: usize) -> &'a [u8]
    requires { at ≤ length text.now }
    ensures { at + length result.now ≤ length text.now }
{
    &text[at..words::find(text, b',', at)]
}

// Bytes, each as two hexadecimal digits.
pub fn bytes_at<'a>(line: &[u8], k: usize, to: &'a mut [u8]) -> &'a [u8]
    ensures { length result.now ≤ length to.old }
{
    let n = words::read_pairs(words::word(line, k), to).unwrap_or(0);
    &to[..n]
}
