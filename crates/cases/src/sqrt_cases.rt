// `sqrt_bits P`, the pattern of the root of the double whose pattern is P; `sqrt P`, the same by way of f64, where a NaN is
// written `nan`; and `by_halves P`, that by the other root.
use crate::forms::{call, is_case};
use crate::putting::Answer;
use crate::reading::{at, pattern_at};

// Puts the answer to a case of the square root.
pub fn answer(line: &[u8], out: &mut Answer) {
    match call(line) {
        b"sqrt_bits" if is_case(line, b"d") => out.pattern(sqrt::sqrt_bits(pattern_at(line, 1))),
        b"sqrt" if is_case(line, b"d") => put_root(sqrt::sqrt(at(line, 1)), out),
        b"by_halves" if is_case(line, b"d") => put_root(by_halves::sqrt(at(line, 1)), out),
        _ => {}
    }
}

fn put_root(root: f64, out: &mut Answer) {
    if root.is_nan() {
        out.word(b"nan");
        return;
    }
    out.value(root);
}
