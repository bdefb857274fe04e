// `mark SQTOL LIST ROOM` and `number LIST ROOM`, whose answer is the lent buffer, whole; `mark_waiting SQTOL LIST ROOM` and
// `number_waiting LIST ROOM`, whose answer has before that how many distances were computed.
use crate::forms::{call, is_case};
use crate::limits::{BYTE, ROOM};
use crate::putting::{Answer, Says};
use crate::reading::at;

// Puts the answer to a case of a split.
pub fn answer(line: &[u8], out: &mut Answer) {
    match call(line) {
        b"mark" if is_case(line, b"dIr") => {
            marked(
                line,
                out,
                |list, tolerance, to| split::mark(list, tolerance, to),
            );
        }
        b"number" if is_case(line, b"Ir") => {
            out.numbered(line, |list, to| split::number(list, to));
        }
        b"mark_waiting" if is_case(line, b"dIr") => {
            marked(
                line,
                out,
                |list, tolerance, to| split::mark_waiting(list, tolerance, to),
            );
        }
        b"number_waiting" if is_case(line, b"Ir") => {
            out.numbered(line, |list, to| split::number_waiting(list, to));
        }
        _ => {}
    }
}

// Calls with a list, a tolerance, and the room for marks.
fn marked<R, F>(line: &[u8], out: &mut Answer, call: F)
where
    R: Says,
    F: FnOnce(&[i32], f64, &mut [u8]) -> R,
    requires callable { F.IsAlwaysCallable call }
{
    let mut places = [BYTE; ROOM];
    let tolerance = at(line, 1);
    out.lent(line, 2, &mut places, |list, to| call(list, tolerance, to));
}
