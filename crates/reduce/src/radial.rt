// The radial pass: a point is kept when it lies farther than the tolerance from the last one kept.
ghost use Rattle.std.specs.Prelude.{◌+◌, ◌*◌, ◌≤◌, false, ◌≡◌, length};
ghost use Rattle.point.specs.Limits.{bad_points};
ghost use Rattle.point.specs.Points.{flat, points as points_of};
ghost use Rattle.point.specs.inside.Near.{Near};
ghost use Rattle.point.specs.inside.Written.{onto, Handed};
ghost use Rattle.reduce.specs.Radial.{sq_dist, radial, radial_end, radial_of};

use crate::keep::keep_all;
use point::{PointI32, Refusal, point_at, put};

// Puts the points that the radial pass keeps at the start of `out`.
pub fn simplify_radial_dist(
    points: &[i32],
    tolerance: f64,
    out: &mut [i32],
) -> Result<usize, Refusal>
    ensures { record { answer = result; out = out.new }
        ≡ radial_of points.now tolerance out.old }
{
    point::judge_points(points)?;
    if point::bad_sq_tolerance(tolerance) {
        return Err(Refusal::BadTolerance);
    }
    if out.len() / 2 < point::places_for(points.len() / 2) {
        return Err(Refusal::NoRoom);
    }
    Ok(keep_far(points, tolerance, out))
}

// Writes what the radial pass keeps, and answers how many points that is.
pub(crate) fn keep_far(points: &[i32], tolerance: f64, out: &mut [i32]) -> usize
    requires { (bad_points points.now ≡ false) × (length points.now ≤ length out.old) }
    ensures { Handed (radial tolerance (points_of points.now)) out.old result out.new }
{
    let n = points.len() / 2;
    if n <= 2 {
        keep_all(points, out);
        return n;
    }
    let mut prev = point_at(points, 0);
    put(prev, 0, out);
    let mut kept = 1;
    for k in 1..n {
        let p = point_at(points, k);
        if tolerance < get_sq_dist(p, prev) {
            put(p, kept, out);
            kept += 1;
            prev = p;
        }
    }
    with_last(point_at(points, n - 1), prev, kept, out)
}

// Writes the last point of a list too, unless the last one kept equals it.
fn with_last(last: PointI32, prev: PointI32, kept: usize, out: &mut [i32]) -> usize
    requires { (kept + length (radial_end last prev)) * 2 ≤ length out.old }
    ensures { (result ≡ kept + length (radial_end last prev))
        × (out.new ≡ onto (kept * 2) (flat (radial_end last prev)) out.old) }
{
    if prev == last {
        return kept;
    }
    put(last, kept, out);
    kept + 1
}

// The square of the distance between two points.
fn get_sq_dist(p: PointI32, q: PointI32) -> f64
    requires { Near p × Near q }
    ensures { result ≡ sq_dist p q }
{
    let dx = p.x - q.x;
    let dy = p.y - q.y;
    f64::from(dx * dx + dy * dy)
}
