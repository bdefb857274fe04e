// The answer to a picture: three lines, or one that says why there are none.
ghost use Rattle.std.specs.Prelude.{◌+◌, ◌≤◌, ◌≡◌, length};
ghost use Rattle.point.specs.Refusals.{refusal_number};
ghost use Rattle.texts.specs.Put.{put, held, put_by};
ghost use Rattle.lines.specs.Turns.{line};
ghost use Rattle.reduce.specs.Numbers.{numbered_of};
ghost use Rattle.frames.specs.Replies.{points_text};
ghost use Rattle.frames.specs.Room.{number_room};
ghost use Rattle.frames.specs.Calls.{numbers_reply};
ghost use Rattle.survey.specs.Survey.{outline_of, two_lines, three_lines, refused_line};

use chart::Chart;
use frames::VALUES;
use point::{Refusal, number};
use texts::Pen;

// Puts the three lines of a chart at the start of the output, and answers how many bytes they have.
pub(crate) fn put_lines(chart: Chart, pixels: &[u8], output: &mut [u8]) -> usize
    requires { 98307 ≤ length output.old }
    ensures { record { answer = result; out = output.new }
        ≡ put (three_lines chart pixels.now) output.old 0 }
{
    let mut points = [0i32; VALUES];
    let answer = outline(chart, pixels, &mut points);
    let list = &points[..answer.unwrap_or(0) * 2];
    let mut pen = Pen { out: output, at: 0 };
    put_points(1, number(answer), list, &mut pen);
    put_simplified(list, &mut pen);
    pen.at
}

// Puts the line of a picture that is refused at the start of the output, and answers how many bytes it has.
pub(crate) fn put_refusal(refusal: Refusal, output: &mut [u8]) -> usize
    requires { 98307 ≤ length output.old }
    ensures { record { answer = result; out = output.new }
        ≡ put (refused_line (refusal_number refusal)) output.old 0 }
{
    let mut pen = Pen { out: output, at: 0 };
    put_points(0, refusal.number(), &[], &mut pen);
    pen.at
}

// The outline from the first start, clockwise.
fn outline(chart: Chart, pixels: &[u8], out: &mut [i32]) -> Result<usize, Refusal>
    ensures { record { answer = result; out = out.new } ≡ outline_of chart pixels.now out.old }
{
    let start = chart::first_start(chart, pixels)?;
    walker::walk(chart, pixels, start, true, out)
}

// Puts the line of the simplification of some points, and that of its numbers.
fn put_simplified(list: &[i32], pen: &mut Pen)
    requires { pen.old.at + 65538 ≤ length pen.old.out.now }
    ensures put { held pen.new ≡ put_by pen.old (two_lines list.now) }
    ensures same { pen.new.out.ghost_name ≡ pen.old.out.ghost_name }
{
    let mut kept = [0i32; VALUES];
    let answer = simplify::simplify(list, true, &mut kept);
    let points = &kept[..answer.unwrap_or(0) * 2];
    put_points(2, number(answer), points, pen);
    put_numbers(points, pen);
}

// Puts the line of the numbers of some points.
fn put_numbers(list: &[i32], pen: &mut Pen)
    requires { pen.old.at + 32769 ≤ length pen.old.out.now }
    ensures put { held pen.new ≡ put_by pen.old (line (numbers_reply (numbered_of list.now number_room))) }
    ensures same { pen.new.out.ghost_name ≡ pen.old.out.ghost_name }
{
    frames::put_numbered(list, pen);
    pen.put_byte(b'\n');
}

// Puts a line of points.
fn put_points(kind: u8, number: u8, values: &[i32], pen: &mut Pen)
    requires { (length values.now ≤ 8190) × (pen.old.at + 32769 ≤ length pen.old.out.now) }
    ensures put { held pen.new ≡ put_by pen.old (line (points_text kind number values.now)) }
    ensures same { pen.new.out.ghost_name ≡ pen.old.out.ghost_name }
{
    frames::put_points(kind, number, values, pen);
    pen.put_byte(b'\n');
}
