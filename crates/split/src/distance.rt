// Squared distances to a segment, operation by operation as the Rust computes them. What all
// distances to one segment have in common is worked out once.
ghost use Rattle.std.specs.Prelude.{◌≡◌};
ghost use Rattle.split.specs.Distance.{place_of, segment_of, has_length, nearest, foot, from_segment};

use point::{PointF64, PointI32};

// A segment from (x, y) to (x2, y2), as doubles: what it spans, and the square of its length.
#[derive(Clone, Copy)]
pub struct Segment {
    x: f64,
    y: f64,
    x2: f64,
    y2: f64,
    dx: f64,
    dy: f64,
    squared: f64,
}

// The segment from one point to another.
#[tactic(auto, unfolding(crate::specs::Distance::segment_of))]
pub(crate) fn between(p1: PointI32, p2: PointI32) -> Segment
    ensures { result ≡ segment_of (place_of p1) (place_of p2) }
{
    let a = place(p1);
    let b = place(p2);
    let dx = b.x - a.x;
    let dy = b.y - a.y;
    Segment {
        x: a.x,
        y: a.y,
        x2: b.x,
        y2: b.y,
        dx,
        dy,
        squared: dx * dx + dy * dy,
    }
}

// The square of the distance from a point to a segment.
#[tactic(auto, unfolding(crate::specs::Distance::from_segment))]
pub(crate) fn get_sq_seg_dist(p: PointI32, s: Segment) -> f64
    ensures { result ≡ from_segment p s }
{
    let at = place(p);
    let f = foot(at, s);
    let dx = at.x - f.x;
    let dy = at.y - f.y;
    dx * dx + dy * dy
}

// A point as doubles.
fn place(p: PointI32) -> PointF64
    ensures { result ≡ place_of p }
{
    PointF64 {
        x: f64::from(p.x),
        y: f64::from(p.y),
    }
}

// The place of a segment that is nearest to a point. A segment of two equal points is that point.
#[tactic(auto, unfolding(crate::specs::Distance::foot))]
fn foot(p: PointF64, s: Segment) -> PointF64
    ensures { result ≡ foot p s }
{
    if has_length(s) {
        return nearest(s, ((p.x - s.x) * s.dx + (p.y - s.y) * s.dy) / s.squared);
    }
    PointF64 { x: s.x, y: s.y }
}

fn has_length(s: Segment) -> bool
    ensures { result ≡ has_length s }
{
    s.dx != 0.0 || s.dy != 0.0
}

// The place that lies `t` along a segment: 0 is its first end, and 1 its second. Past an end it is that end.
#[tactic(auto, unfolding(crate::specs::Distance::nearest))]
fn nearest(s: Segment, t: f64) -> PointF64
    ensures { result ≡ nearest s t }
{
    if 1.0 < t {
        return PointF64 { x: s.x2, y: s.y2 };
    }
    if 0.0 < t {
        return PointF64 {
            x: s.x + s.dx * t,
            y: s.y + s.dy * t,
        };
    }
    PointF64 { x: s.x, y: s.y }
}
