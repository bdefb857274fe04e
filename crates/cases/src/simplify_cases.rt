// `remove_staircase CLOCKWISE LIST ROOM`, `limit_penalties LIST ROOM` and `simplify CLOCKWISE LIST ROOM`. The answer is
// the number of the refusal, or 0, the count of points, and all that the lent buffer then holds.
use crate::forms::{call, is_case};
use crate::putting::Answer;
use crate::reading::at;

// Puts the answer to a case of a simplification.
pub fn answer(line: &[u8], out: &mut Answer) {
    match call(line) {
        b"remove_staircase" if is_case(line, b"cIr") => {
            let clockwise = at(line, 1);
            out.kept(
                line,
                2,
                |list, to| simplify::remove_staircase(list, clockwise, to),
            );
        }
        b"limit_penalties" if is_case(line, b"Ir") => {
            out.kept(line, 1, |list, to| simplify::limit_penalties(list, to));
        }
        b"simplify" if is_case(line, b"cIr") => {
            let clockwise = at(line, 1);
            out.kept(line, 2, |list, to| simplify::simplify(list, clockwise, to));
        }
        _ => {}
    }
}
