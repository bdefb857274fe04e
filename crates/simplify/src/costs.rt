// What it costs to leave out all points between two positions.
ghost use Rattle.std.specs.Prelude.{◌<◌, false, ◌≡◌};
ghost use Rattle.point.specs.Limits.{bad_points};
ghost use Rattle.point.specs.Points.{points as points_of, count};
ghost use Rattle.simplify.specs.Penalties.{too_costly};

use crate::triangle::{evaluate_penalty, side};
use point::point_at;

// A point that costs so much, or more, is not left out.
const TOLERANCE: f64 = 1.0;

// Whether the greatest penalty of the points between two positions reaches the tolerance. It does exactly
// where one of them does, so the first that does decides; the Rust works all of them out. A penalty that is
// NaN counts for nothing. The side from `from` to `to`, which takes the points' place, is worked out once.
pub(crate) fn past_delta(points: &[i32], from: usize, to: usize) -> bool
    requires { (bad_points points.now ≡ false) × (from < to) × (to < count points.now) }
    ensures { result ≡ too_costly (points_of points.now) from to }
{
    let a = point_at(points, from);
    let c = point_at(points, to);
    let l3 = side(c, a);
    for k in from + 1..to {
        if TOLERANCE <= evaluate_penalty(a, point_at(points, k), c, l3) {
            return true;
        }
    }
    false
}
