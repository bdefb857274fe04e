// `read_pbm FILE ROOM`, whose answer is the number of the refusal, the width, the height, the count of bytes that the image
// took and the whole chart buffer; `write_pbm W H BYTES ROOM`, whose answer is the number, the count of bytes and the whole
// output. Refused, sizes and counts are 0.
use crate::forms::{call, is_case};
use crate::limits::{BYTE, ROOM};
use crate::lists::bytes_at;
use crate::putting::Answer;
use crate::reading::{room_at, two_at};
use chart::Chart;
use pbm::Picture;

// What stands for the picture of a file that is refused.
const NO_PICTURE: Picture = Picture {
    chart: Chart {
        width: 0,
        height: 0,
    },
    bytes: 0,
};

// Puts the answer to a case of a picture.
// A match of names, as in every subject: a table of functions would be no plainer, and no pointer to one is handed out.
pub fn answer(line: &[u8], out: &mut Answer) {
    match call(line) {
        b"read_pbm" if is_case(line, b"Br") => read(line, out),
        b"write_pbm" if is_case(line, b"nnBr") => write(line, out),
        _ => {}
    }
}

fn read(line: &[u8], out: &mut Answer) {
    let mut bytes = [0u8; ROOM];
    let file = bytes_at(line, 1, &mut bytes);
    let mut places = [BYTE; ROOM];
    let pixels = room_at(line, 2, &mut places);
    let answer = pbm::read_pbm(file, pixels);
    let picture = answer.unwrap_or(NO_PICTURE);
    out.number(answer);
    out.value(picture.chart.width);
    out.value(picture.chart.height);
    out.value(picture.bytes);
    out.bytes(pixels);
}

fn write(line: &[u8], out: &mut Answer) {
    let mut bytes = [0u8; ROOM];
    let pixels = bytes_at(line, 3, &mut bytes);
    let mut places = [BYTE; ROOM];
    let text = room_at(line, 4, &mut places);
    out.count(pbm::write_pbm(two_at(line, 1), pixels, text));
    out.bytes(text);
}
