// Where a span is split.
ghost use Rattle.std.specs.Prelude.{◌+◌, ◌<◌, ◌≡◌};
ghost use Rattle.point.specs.Points.{count, point_at};
ghost use Rattle.split.specs.Distance.{from_segment};
ghost use Rattle.split.specs.Farthest.{farther_of};
ghost use Rattle.split.specs.inside.Spans.{line_of, FoundInside};

use crate::distance::{Segment, between, get_sq_seg_dist};
use point::PointI32;

// A position of a list, and the square of its point's distance from a segment.
#[derive(Clone, Copy)]
pub struct Far {
    pub index: usize,
    pub distance: f64,
}

// The splitting point of a span: the interior point that lies farthest from the segment between its
// ends, the earliest of equals.
pub(crate) fn farthest(points: &[i32], first: usize, last: usize) -> Far
    requires { (first + 1 < last) × (last < count points.now) }
    ensures { FoundInside points.now first last result }
{
    let line = line_of(points, first, last);
    let mut far = Far {
        index: first + 1,
        distance: distance_at(points, first + 1, line),
    };
    for i in first + 2..last {
        far = farther_of(
            far,
            Far {
                index: i,
                distance: distance_at(points, i, line),
            },
        );
    }
    far
}

// The farther of two, the first of equals. (No order of std's: a NaN is never farther.)
fn farther_of(a: Far, b: Far) -> Far
    ensures { result ≡ farther_of a b }
{
    if a.distance < b.distance {
        return b;
    }
    a
}

// The segment between the ends of a span.
#[tactic(auto, unfolding(crate::specs::inside::Spans::line_of))]
fn line_of(points: &[i32], first: usize, last: usize) -> Segment
    requires { (first < last) × (last < count points.now) }
    ensures { result ≡ line_of points.now first last }
{
    between(point_at(points, first), point_at(points, last))
}

// The square of the distance from the point at a position to a segment.
fn distance_at(points: &[i32], k: usize, line: Segment) -> f64
    requires { k < count points.now }
    ensures { result ≡ from_segment (point_at points.now k) line }
{
    get_sq_seg_dist(point_at(points, k), line)
}

// The point at a position that the list has: here, in the innermost loop, nothing is tested.
fn point_at(points: &[i32], k: usize) -> PointI32
    requires { k < count points.now }
    ensures { result ≡ point_at points.now k }
{
    PointI32 {
        x: points[k * 2],
        y: points[k * 2 + 1],
    }
}
