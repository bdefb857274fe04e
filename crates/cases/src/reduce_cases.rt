// `radial SQTOL LIST ROOM`, `douglas_peucker SQTOL LIST ROOM MARKROOM`, `reduce TOL LIST ROOM SCRATCHROOM MARKROOM`,
// `numbers LIST ROOM` and `zoom SQTOL LIST NUMBERS ROOM`. The answer is the number of the refusal or 0, the count, and
// each lent buffer, whole. `douglas_peucker_counted` and `numbers_counted` are the same, with how many distances were
// computed behind the count.
use crate::forms::{call, is_case};
use crate::limits::{BYTE, INTEGER, ROOM, VALUES};
use crate::lists::values_at;
use crate::putting::{Answer, Says};
use crate::reading::{at, room_at};

// Puts the answer to a case of a reduction.
pub fn answer(line: &[u8], out: &mut Answer) {
    match call(line) {
        b"numbers" if is_case(line, b"Ir") => {
            out.numbered(line, |list, to| reduce::numbers(list, to));
        }
        b"numbers_counted" if is_case(line, b"Ir") => {
            out.numbered(line, |list, to| reduce::numbers_counted(list, to));
        }
        b"radial" if is_case(line, b"dIr") => {
            let tolerance = at(line, 1);
            out.kept(
                line,
                2,
                |list, to| reduce::simplify_radial_dist(list, tolerance, to),
            );
        }
        b"douglas_peucker" if is_case(line, b"dIrr") => marked(
            line,
            out,
            |list, tolerance, to, marks| {
                reduce::simplify_douglas_peucker(list, tolerance, to, marks)
            },
        ),
        b"douglas_peucker_counted" if is_case(line, b"dIrr") => marked(
            line,
            out,
            |list, tolerance, to, marks| {
                reduce::simplify_douglas_peucker_counted(list, tolerance, to, marks)
            },
        ),
        b"reduce" if is_case(line, b"dIrrr") => reduce(line, out),
        b"zoom" if is_case(line, b"dIDr") => zoom(line, out),
        _ => {}
    }
}

// Calls with a list, a tolerance, and the rooms for points and for marks.
fn marked<R, F>(line: &[u8], out: &mut Answer, call: F)
where
    R: Says,
    F: FnOnce(&[i32], f64, &mut [i32], &mut [u8]) -> R,
    requires callable { F.IsAlwaysCallable call }
{
    let mut mark_places = [BYTE; ROOM];
    let marks = room_at(line, 4, &mut mark_places);
    let tolerance = at(line, 1);
    out.kept(line, 2, |list, to| call(list, tolerance, to, marks));
    out.bytes(marks);
}

fn reduce(line: &[u8], out: &mut Answer) {
    let mut list = [0i32; VALUES];
    let points = values_at(line, 2, &mut list);
    let mut places = [INTEGER; ROOM];
    let values = room_at(line, 3, &mut places);
    let mut scratch_places = [INTEGER; ROOM];
    let scratch = room_at(line, 4, &mut scratch_places);
    let mut mark_places = [BYTE; ROOM];
    let marks = room_at(line, 5, &mut mark_places);
    let tolerance = at(line, 1);
    out.count(reduce::reduce(points, tolerance, values, scratch, marks));
    out.values(values);
    out.values(scratch);
    out.bytes(marks);
}

fn zoom(line: &[u8], out: &mut Answer) {
    let mut list = [0i32; VALUES];
    let points = values_at(line, 2, &mut list);
    let mut number_places = [0.0f64; VALUES];
    let numbers = values_at(line, 3, &mut number_places);
    let mut places = [INTEGER; ROOM];
    let values = room_at(line, 4, &mut places);
    out.count(reduce::zoom(points, numbers, at(line, 1), values));
    out.values(values);
}
