// The forms of cases: for each call a letter for each word that follows its name.
//
//   c  0 or 1
//   n  a number from zero on that 64 bits hold
//   i  an integer that 32 bits hold
//   w  an integer that 64 bits hold
//   d  a double, the 16 hexadecimal digits of its pattern
//   r  a room that can be lent
//   I  integers, a comma between each two; `-` for none
//   D  doubles, likewise
//   B  bytes, each as two hexadecimal digits; `-` for none
use crate::limits::{ROOM, VALUES};
use crate::lists::value_at;
use crate::reading::Value;

// The call that a line names.
pub fn call(line: &[u8]) -> &[u8] {
    words::word(line, 0)
}

// Whether the words behind the call are of the kinds that these letters name.
pub fn is_case(line: &[u8], letters: &[u8]) -> bool {
    if words::words(line) != letters.len() + 1 {
        return false;
    }
    for (k, letter) in letters.iter().enumerate() {
        if !is_of(words::word(line, k + 1), *letter) {
            return false;
        }
    }
    true
}

// Whether a word is of the kind that a letter names.
fn is_of(word: &[u8], letter: u8) -> bool {
    match letter {
        b'I' => is_list::<i32>(word),
        b'D' => is_list::<f64>(word),
        b'B' => is_bytes(word),
        b'c' => check::same(word, b"0") | check::same(word, b"1"),
        b'n' => words::read_natural(word).is_some(),
        b'r' => words::read_natural(word).is_some_and(|n| n <= ROOM as u64),
        b'i' => i32::read(word).is_some(),
        b'w' => i64::read(word).is_some(),
        _ => f64::read(word).is_some(),
    }
}

// Whether a word is a list of values.
fn is_list<T: Value>(word: &[u8]) -> bool {
    if words::is_dash(word) {
        return true;
    }
    let mut at = 0;
    for _ in 0..VALUES {
        let value = value_at(word, at);
        if T::read(value).is_none() {
            return false;
        }
        at += value.len() + 1;
        if word.len() < at {
            return true;
        }
    }
    false
}

fn is_bytes(word: &[u8]) -> bool {
    let mut bytes = [0u8; ROOM];
    words::read_pairs(word, &mut bytes).is_some()
}
