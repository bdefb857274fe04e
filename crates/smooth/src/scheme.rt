// One segment of an outline that is smoothed: whether a point enters between its two, and where. A new
// point lies beside the middle of its segment, away from the points around it: where the outline bends, it
// bends more gently then.
//
// Each call takes any points. A segment takes 6 square roots at most: its length, and where that is over
// the segment length those of the segments beside it; where a point enters, how far out it lies, and the
// length of one new segment or both.
ghost use Rattle.std.specs.Prelude.{◌≡◌};
ghost use Rattle.smooth.specs.Scheme.{distance, outset, new_point, twice, skipped, settled, placed};

use point::PointF64;

// What a round goes by.
#[derive(Clone, Copy)]
pub struct Settings {
    // The outset ratio. Take the middle of a segment, and the middle of the two points around it, the one
    // before and the one behind: a new point lies off the first, away from the second, by the distance
    // between the two over this ratio. The greater it is, the nearer the new point is to its segment.
    pub ratio: f64,
    // The segment length: a segment of at most this length is left as it is.
    pub length: f64,
}

// The point that enters a segment, and whether both new parts are short, at most the segment length.
#[derive(Clone, Copy)]
pub struct Entering {
    pub point: PointF64,
    pub settled: bool,
}

// The Rust's f64::EPSILON: the least double above 1, less 1.
const EPSILON: f64 = 0.0000000000000002220446049250313;

// The point that enters between `p` and `q`, where the points around them that count are `before` and
// `behind`; and whether both new parts are short.
#[tactic(auto, unfolding(crate::specs::Scheme::placed))]
pub(crate) fn placed(
    settings: Settings,
    p: PointF64,
    q: PointF64,
    before: PointF64,
    behind: PointF64,
) -> Entering
    ensures { result ≡ placed settings p q before behind }
{
    let point = new_point(p, q, before, behind, settings.ratio);
    Entering {
        point,
        settled: settled(p, q, point, settings.length),
    }
}

// Whether the segment from `p` to `q` is left as it is: it is short, or the one before it, from `prev`, or
// the one behind it, to `next`, is at least twice as long.
#[tactic(auto, unfolding(crate::specs::Scheme::skipped))]
pub(crate) fn skipped(
    p: PointF64,
    q: PointF64,
    prev: PointF64,
    next: PointF64,
    segment_length: f64,
) -> bool
    ensures { result ≡ skipped p q prev next segment_length }
{
    let curr = distance(p, q);
    curr <= segment_length || is_twice(distance(prev, p), curr) || is_twice(distance(next, q), curr)
}

// Whether a length is at least twice the current segment's.
fn is_twice(length: f64, curr: f64) -> bool
    ensures { result ≡ twice length curr }
{
    2.0 <= length / curr
}

// Whether both parts of a segment are short: neither is longer than the segment length.
#[tactic(auto, unfolding(crate::specs::Scheme::settled))]
fn settled(p: PointF64, q: PointF64, new: PointF64, segment_length: f64) -> bool
    ensures { result ≡ settled p q new segment_length }
{
    !(segment_length < distance(p, new) || segment_length < distance(q, new))
}

// How far two points lie apart.
#[tactic(auto, unfolding(crate::specs::Scheme::distance))]
fn distance(p: PointF64, q: PointF64) -> f64
    ensures { result ≡ distance p q }
{
    util::length(p.x - q.x, p.y - q.y)
}

// Where the new point lies: from the middle of `p` and `q` away from the middle of `before` and `behind`,
// by the distance between the two over `ratio`. Where that is next to nothing, it is the first middle.
#[tactic(auto, unfolding(crate::specs::Scheme::new_point))]
fn new_point(p: PointF64, q: PointF64, before: PointF64, behind: PointF64, ratio: f64) -> PointF64
    ensures { result ≡ new_point p q before behind ratio }
{
    let out = util::middle(p, q);
    let inner = util::middle(before, behind);
    let vx = out.x - inner.x;
    let vy = out.y - inner.y;
    let norm = util::length(vx, vy);
    let magnitude = norm / ratio;
    if magnitude < EPSILON {
        return out;
    }
    PointF64 {
        x: outset(out.x, vx, norm, magnitude),
        y: outset(out.y, vy, norm, magnitude),
    }
}

// A coordinate of the place that lies `magnitude` on from `out`, in the direction of a vector: `v` is the
// vector's coordinate, `norm` its length.
fn outset(out: f64, v: f64, norm: f64, magnitude: f64) -> f64
    ensures { result ≡ outset out v norm magnitude }
{
    out + v / norm * magnitude
}
