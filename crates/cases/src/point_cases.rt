// `points LIST` and `points_f64 LIST`, whose answer is 0, or the lowest of the numbers of TooMany and BadPoint that
// applies; `tolerance P` and `sq_tolerance P`, whose answer is 0 or the number of BadTolerance.
use crate::forms::{call, is_case};
use crate::limits::VALUES;
use crate::lists::values_at;
use crate::putting::Answer;
use crate::reading::{Value, at};
use point::{Ranged, Refusal};

// Puts the answer to a case of the limits.
pub fn answer(line: &[u8], out: &mut Answer) {
    match call(line) {
        b"points" if is_case(line, b"I") => points(line, &mut [0i32; VALUES], out),
        b"points_f64" if is_case(line, b"D") => points(line, &mut [0.0f64; VALUES], out),
        b"tolerance" if is_case(line, b"d") => out.number(toleranced(point::bad_tolerance(at(
            line, 1,
        )))),
        b"sq_tolerance" if is_case(line, b"d") => {
            out.number(toleranced(point::bad_sq_tolerance(at(line, 1))));
        }
        _ => {}
    }
}

// The list is lent: by value each line would copy it.
fn points<T: Value + Ranged>(line: &[u8], list: &mut [T], out: &mut Answer) {
    out.number(point::judge_points(values_at(line, 1, list)));
}

fn toleranced(bad: bool) -> Result<(), Refusal> {
    if bad {
        return Err(Refusal::BadTolerance);
    }
    Ok(())
}
