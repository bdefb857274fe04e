// `corners C S CLOSED LIST ROOM`, whose answer is the number of the refusal or 0, the count and the flags, and `subdivide
// RATIO LENGTH CLOSED NUMBERS CORNERS ROOM FLAGROOM`, whose answer has whether the round is finished behind the count, and
// both buffers.
use crate::forms::{call, is_case};
use crate::limits::{BYTE, DOUBLE, ROOM, VALUES};
use crate::lists::{bytes_at, values_at};
use crate::putting::Answer;
use crate::reading::{at, room_at};
use corners::Pair;
use smooth::{Settings, Subdivided};

// Puts the answer to a case of corners or of a round.
// A match of names, as in every subject: a table of functions would be no plainer, and no pointer to one is handed out.
pub fn answer(line: &[u8], out: &mut Answer) {
    match call(line) {
        b"corners" if is_case(line, b"iicIr") => corners(line, out),
        b"subdivide" if is_case(line, b"ddcDBrr") => subdivide(line, out),
        _ => {}
    }
}

fn corners(line: &[u8], out: &mut Answer) {
    let pair = Pair {
        c: at(line, 1),
        s: at(line, 2),
    };
    let mut list = [0i32; VALUES];
    let points = values_at(line, 4, &mut list);
    let mut places = [BYTE; ROOM];
    let flags = room_at(line, 5, &mut places);
    out.count(corners::find_corners(points, pair, at(line, 3), flags));
    out.bytes(flags);
}

fn subdivide(line: &[u8], out: &mut Answer) {
    let settings = Settings {
        ratio: at(line, 1),
        length: at(line, 2),
    };
    let closed = at(line, 3);
    let mut list = [0.0f64; VALUES];
    let points = values_at(line, 4, &mut list);
    let mut corner_places = [0u8; ROOM];
    let corners = bytes_at(line, 5, &mut corner_places);
    let mut places = [DOUBLE; ROOM];
    let values = room_at(line, 6, &mut places);
    let mut flag_places = [BYTE; ROOM];
    let flags = room_at(line, 7, &mut flag_places);
    let answer = smooth::subdivide_keep_corners(points, corners, settings, closed, values, flags);
    let round = answer.unwrap_or(Subdivided {
        points: 0,
        finished: false,
    });
    out.number(answer);
    out.value(round.points);
    out.value(round.finished);
    out.values(values);
    out.bytes(flags);
}
