// `signed_area X1 Y1 X2 Y2 X3 Y3` and `norm_i32 X Y` of whole numbers, `norm`, `mid_point` and `intersection` of doubles,
// two for each point, and `ratios` of the two of a crossing. The answer is the number of the refusal, or 0 and what was
// worked out.
use crate::forms::{call, is_case};
use crate::putting::Answer;
use crate::reading::two_at;
use point::{PointF64, PointI32, Refusal};
use util::{Intersection, Vector};

// Puts the answer to a case of points and lines.
pub fn answer(line: &[u8], out: &mut Answer) {
    match call(line) {
        b"signed_area" if is_case(line, b"iiiiii") => signed_area(line, out),
        b"norm_i32" if is_case(line, b"ii") => put_length(two_at::<PointI32>(line, 1).norm(), out),
        b"norm" if is_case(line, b"dd") => put_length(two_at::<PointF64>(line, 1).norm(), out),
        b"mid_point" if is_case(line, b"dddd") => mid_point(line, out),
        b"intersection" if is_case(line, b"dddddddd") => put_crossing(intersection(line), out),
        b"ratios" if is_case(line, b"dd") => put_says(ratios(two_at(line, 1)), out),
        _ => {}
    }
}

fn signed_area(line: &[u8], out: &mut Answer) {
    let answer = util::signed_area(two_at(line, 1), two_at(line, 3), two_at(line, 5));
    out.number(answer);
    if let Ok(area) = answer {
        out.value(area);
    }
}

fn mid_point(line: &[u8], out: &mut Answer) {
    let answer = util::find_mid_point(two_at(line, 1), two_at(line, 3));
    out.number(answer);
    if let Ok(p) = answer {
        put_pair(p, out);
    }
}

fn intersection(line: &[u8]) -> Intersection {
    util::find_intersection(
        two_at(line, 1),
        two_at(line, 3),
        two_at(line, 5),
        two_at(line, 7),
    )
}

// A crossing with these two ratios.
fn ratios(p: PointF64) -> Intersection {
    Intersection::Cross(p, p.x, p.y)
}

fn put_length(answer: Result<f64, Refusal>, out: &mut Answer) {
    out.number(answer);
    if let Ok(length) = answer {
        out.value(length);
    }
}

// A crossing: its number, what it carries, and what it says of itself; refused, its number alone.
fn put_crossing(answer: Intersection, out: &mut Answer) {
    out.value(usize::from(answer.number()));
    match answer {
        Intersection::Parallel => out.word(b"parallel"),
        Intersection::Coincide(p) => {
            out.word(b"coincide");
            put_pair(p, out);
        }
        Intersection::Cross(p, mua, mub) => {
            out.word(b"cross");
            put_pair(p, out);
            put_pair(PointF64 { x: mua, y: mub }, out);
        }
        Intersection::Refused(_) => return,
    }
    put_says(answer, out);
}

// Whether a crossing lies outside, inside, and whether the lines are one.
fn put_says(answer: Intersection, out: &mut Answer) {
    out.value(answer.outside());
    out.value(answer.inside());
    out.value(answer.coincide());
}

fn put_pair(p: PointF64, out: &mut Answer) {
    out.value(p.x);
    out.value(p.y);
}
