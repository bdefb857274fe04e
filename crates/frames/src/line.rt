// A line, and what it is answered: the call that its frame asks for is made.
ghost use Rattle.std.specs.Prelude.{◌≡◌};
ghost use Rattle.texts.specs.Put.{held, put_by};
ghost use Rattle.requests.specs.Frame.{request_in};
ghost use Rattle.frames.specs.Answer.{answer_to, reply_to, bad_reply};

use crate::{VALUES, calls};
use requests::{Asked, MOST};
use texts::Pen;

// Puts the answer to a line, with no end of line. Where it does not fit, nothing is written and the place stays.
pub fn answer(line: &[u8], pen: &mut Pen)
    ensures put { held pen.new ≡ put_by pen.old (answer_to line.now) }
    ensures same { pen.new.out.ghost_name ≡ pen.old.out.ghost_name }
{
    let mut frame = [0u8; MOST];
    match words::read_bytes(line, &mut frame) {
        Some(n) => reply(&frame[..n], pen),
        None => bad(pen),
    }
}

// Puts the answer to a frame.
fn reply(frame: &[u8], pen: &mut Pen)
    ensures put { held pen.new ≡ put_by pen.old (reply_to (request_in frame.now)) }
    ensures same { pen.new.out.ghost_name ≡ pen.old.out.ghost_name }
{
    let mut points = [0i32; VALUES];
    match requests::request(frame, &mut points) {
        Some(
            Asked::Walk {
                clockwise,
                chart,
                start,
                rows,
            },
        ) => calls::put_walk(chart, &frame[rows..], start, clockwise, pen),
        Some(Asked::Simplify { clockwise, values }) => {
            calls::put_simplified(&points[..values], clockwise, pen);
        }
        Some(Asked::Reduce { tolerance, values }) => {
            calls::put_reduced(&points[..values], f64::from(tolerance) / 16.0, pen);
        }
        Some(Asked::Numbers { values }) => calls::put_numbered(&points[..values], pen),
        None => bad(pen),
    }
}

// The answer to what is no frame.
fn bad(pen: &mut Pen)
    ensures put { held pen.new ≡ put_by pen.old bad_reply }
    ensures same { pen.new.out.ghost_name ≡ pen.old.out.ghost_name }
{
    pen.put_bytes(b"ff0b0000");
}
