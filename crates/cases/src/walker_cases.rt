// `walk CLOCKWISE W H BYTES X Y ROOM`, whose answer is the number of the refusal, the count of points and the whole buffer.
use crate::forms::{call, is_case};
use crate::limits::{INTEGER, ROOM};
use crate::lists::bytes_at;
use crate::putting::Answer;
use crate::reading::{at, room_at, two_at};

// Puts the answer to a case of a walk.
pub fn answer(line: &[u8], out: &mut Answer) {
    match call(line) {
        b"walk" if is_case(line, b"cnnBiir") => walk(line, out),
        _ => {}
    }
}

fn walk(line: &[u8], out: &mut Answer) {
    let mut bytes = [0u8; ROOM];
    let pixels = bytes_at(line, 4, &mut bytes);
    let mut places = [INTEGER; ROOM];
    let values = room_at(line, 7, &mut places);
    let start = two_at(line, 5);
    out.count(walker::walk(two_at(line, 2), pixels, start, at(line, 1), values));
    out.values(values);
}
