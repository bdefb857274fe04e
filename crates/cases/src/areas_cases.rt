// `twice_area LIST`, `areas_by LIST MARKS`, `areas_at SQTOL LIST MARKROOM` and `together` of the three areas of one list and
// the three of another. The answer is the number of the refusal, or 0 and the areas; behind it, of `areas_at`, the marks.
ghost use Rattle.std.specs.Prelude.{◌≤◌};

use crate::forms::{call, is_case};
use crate::limits::{BYTE, ROOM, VALUES};
use crate::lists::{bytes_at, values_at};
use crate::putting::Answer;
use crate::reading::{at, room_at};
use areas::Areas;
use point::Refusal;

// Puts the answer to a case of areas.
pub fn answer(line: &[u8], out: &mut Answer) {
    match call(line) {
        b"twice_area" if is_case(line, b"I") => twice_area(line, out),
        b"areas_by" if is_case(line, b"IB") => areas_by(line, out),
        b"areas_at" if is_case(line, b"dIr") => areas_at(line, out),
        b"together" if is_case(line, b"wwwwww") => {
            put_areas(areas::together(three_at(line, 1), three_at(line, 4)), out);
        }
        _ => {}
    }
}

fn twice_area(line: &[u8], out: &mut Answer) {
    let mut list = [0i32; VALUES];
    let answer = areas::twice_area(values_at(line, 1, &mut list));
    out.number(answer);
    if let Ok(twice) = answer {
        out.value(twice);
    }
}

fn areas_by(line: &[u8], out: &mut Answer) {
    let mut list = [0i32; VALUES];
    let mut kept = [0u8; ROOM];
    let answer = areas::areas_by(values_at(line, 1, &mut list), bytes_at(line, 2, &mut kept));
    put_areas(answer, out);
}

fn areas_at(line: &[u8], out: &mut Answer) {
    let mut list = [0i32; VALUES];
    let points = values_at(line, 2, &mut list);
    let mut places = [BYTE; ROOM];
    let marks = room_at(line, 3, &mut places);
    put_areas(areas::areas_at(points, at(line, 1), marks), out);
    out.bytes(marks);
}

// The three areas from a place on.
fn three_at(line: &[u8], k: usize) -> Areas
    requires { k ≤ 4 }
{
    Areas {
        whole: at(line, k),
        kept: at(line, k + 1),
        gaps: at(line, k + 2),
    }
}

fn put_areas(answer: Result<Areas, Refusal>, out: &mut Answer) {
    out.number(answer);
    if let Ok(areas) = answer {
        out.value(areas.whole);
        out.value(areas.kept);
        out.value(areas.gaps);
    }
}
