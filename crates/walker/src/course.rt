// The walk along an outline, run by run.
ghost use Rattle.std.specs.Prelude.{◌+◌, ◌<◌, false, ◌≡◌, length, set};
ghost use Rattle.chart.specs.Pixels.{bad_chart};
ghost use Rattle.walker.specs.Walk.{walked};
ghost use Rattle.walker.specs.inside.Course.{OnEdge, rest, place_of, counted, HasRoom, written};

use crate::exits::way_in;
use crate::run::{is_on, place_of, run};
use chart::Chart;
use point::{PointI32, Ranged, Refusal};

// After a run, a walk of more steps than these is stuck.
const LIMIT: u32 = 1000000;

// Puts the outline of what is set at the start of `out`: the start, and the end of each run until
// one ends on the start. Any other answer leaves `out` as it was.
#[tactic(auto, using(crate::proofs::course::Returns::answers))]
pub fn walk(
    chart: Chart,
    pixels: &[u8],
    start: PointI32,
    clockwise: bool,
    out: &mut [i32],
) -> Result<usize, Refusal>
    ensures { record { answer = result; out = out.new }
        ≡ walked chart pixels.now start clockwise out.old }
{
    if chart::bad_chart(chart, pixels) {
        return Err(Refusal::BadSize);
    }
    if !start.in_range() {
        return Err(Refusal::BadPoint);
    }
    let way = way_in(chart, pixels, start, clockwise).ok_or(Refusal::NoWay)?;
    let points = count(chart, pixels, start, way, clockwise).ok_or(Refusal::Stuck)?;
    if out.len() / 2 < points {
        return Err(Refusal::NoRoom);
    }
    write(chart, pixels, start, way, clockwise, out);
    Ok(points)
}

// How many points the outline from `start` has, or none where the walk is stuck.
#[tactic(auto, using(crate::proofs::course::Counting::counting))]
fn count(chart: Chart, pixels: &[u8], start: PointI32, way: u8, clockwise: bool) -> Option<usize>
    requires { (bad_chart chart pixels.now ≡ false) × OnEdge chart pixels.now (place_of start way) }
    ensures { result ≡ counted 1 (rest chart pixels.now clockwise start (place_of start way)) }
{
    let mut at = place_of(start, way);
    let mut points = 1;
    loop {
        at = run(chart, pixels, at, clockwise);
        points += 1;
        if LIMIT < at.steps {
            return None;
        }
        if is_on(start, at) {
            return Some(points);
        }
    }
}

// Writes the outline from `start`, which ends and has room.
//
// Counting and writing stay two loops: one for both would look at the limit in the second pass too.
// Places are counted by hand: a loop over the buffer's pairs would add a test for each of them.
#[tactic(auto, using(crate::proofs::course::Writing::writing))]
fn write(chart: Chart, pixels: &[u8], start: PointI32, way: u8, clockwise: bool, out: &mut [i32])
    requires { (bad_chart chart pixels.now ≡ false) × OnEdge chart pixels.now (place_of start way)
        × HasRoom out.old (rest chart pixels.now clockwise start (place_of start way)) }
    ensures { out.new ≡ written out.old start (rest chart pixels.now clockwise start (place_of start way)) }
{
    let mut pen = place_of(start, way);
    put(out, 0, start.x, start.y);
    let mut i = 2;
    loop {
        pen = run(chart, pixels, pen, clockwise);
        put(out, i, pen.x, pen.y);
        i += 2;
        if is_on(start, pen) {
            return;
        }
    }
}

// Puts a point at a place of `out`.
fn put(out: &mut [i32], i: usize, x: i32, y: i32)
    requires { i + 1 < length out.old }
    ensures { out.new ≡ set (set out.old i x) (i + 1) y }
{
    out[i] = x;
    out[i + 1] = y;
}
