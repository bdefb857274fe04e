// `pixel W H BYTES X Y`, whose answer is 0 or 1; `area W H BYTES`, whose answer is the number of the refusal and the area;
// `first_start W H BYTES`, whose answer is the number and the point. Refused, the area and the point are 0.
use crate::forms::{call, is_case};
use crate::limits::ROOM;
use crate::lists::bytes_at;
use crate::putting::Answer;
use crate::reading::{at, two_at};
use point::PointI32;

// Puts the answer to a case of a chart.
pub fn answer(line: &[u8], out: &mut Answer) {
    match call(line) {
        b"pixel" if is_case(line, b"nnBii") => pixel(line, out),
        b"area" if is_case(line, b"nnB") => area(line, out),
        b"first_start" if is_case(line, b"nnB") => first_start(line, out),
        _ => {}
    }
}

fn pixel(line: &[u8], out: &mut Answer) {
    let mut bytes = [0u8; ROOM];
    let pixels = bytes_at(line, 3, &mut bytes);
    out.value(chart::pixel(two_at(line, 1), pixels, at(line, 4), at(line, 5)));
}

fn area(line: &[u8], out: &mut Answer) {
    let mut bytes = [0u8; ROOM];
    out.count(chart::area(two_at(line, 1), bytes_at(line, 3, &mut bytes)));
}

fn first_start(line: &[u8], out: &mut Answer) {
    let mut bytes = [0u8; ROOM];
    let start = chart::first_start(two_at(line, 1), bytes_at(line, 3, &mut bytes));
    out.number(start);
    out.point(start.unwrap_or(PointI32 { x: 0, y: 0 }));
}
