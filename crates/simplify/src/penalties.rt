// The points that an outline can do without at little cost, left out. Leaving a point out costs the square
// of the area of the triangle that it makes with the points kept before and behind it, over the side between
// these two.
ghost use Rattle.std.specs.Prelude.{◌*◌, ◌<◌, ◌≤◌, false, ◌≡◌, length};
ghost use Rattle.point.specs.Limits.{bad_points};
ghost use Rattle.point.specs.Points.{points as points_of, count};
ghost use Rattle.point.specs.inside.Written.{Handed};
ghost use Rattle.simplify.specs.Penalties.{limit_penalties, penalties_of};

use crate::costs::past_delta;
use point::{Refusal, judge, point_at, put};

// Puts the points that are left at the start of `out`.
pub fn limit_penalties(points: &[i32], out: &mut [i32]) -> Result<usize, Refusal>
    ensures { record { answer = result; out = out.new } ≡ penalties_of points.now out.old }
{
    judge(points, out.len())?;
    Ok(keep_costly(points, out))
}

// Writes the points that are kept, and answers how many that is. The first is kept in any case, of
// two it alone, and one twice.
fn keep_costly(points: &[i32], out: &mut [i32]) -> usize
    requires { (bad_points points.now ≡ false) × (length (limit_penalties (points_of points.now)) * 2 ≤ length out.old) }
    ensures { Handed (limit_penalties (points_of points.now)) out.old result out.new }
{
    let first = point_at(points, 0);
    match points.len() / 2 {
        0 => 0,
        1 => {
            put(first, 0, out);
            put(first, 1, out);
            2
        }
        2 => {
            put(first, 0, out);
            1
        }
        _ => keep_many(points, out),
    }
}

// Writes what is kept of more than two points, and answers how many that is: the first, the last, and
// wherever it would cost too much to go straight from the last one kept to the point at `i`, the point
// before `i`. The Rust passes over the position right after the last one kept: that is position 1 alone, so
// the loop begins at 2.
fn keep_many(points: &[i32], out: &mut [i32]) -> usize
    requires { (bad_points points.now ≡ false) × (2 < count points.now)
        × (length (limit_penalties (points_of points.now)) * 2 ≤ length out.old) }
    ensures { Handed (limit_penalties (points_of points.now)) out.old result out.new }
{
    let n = points.len() / 2;
    put(point_at(points, 0), 0, out);
    let mut kept = 1;
    let mut last = 0;
    for i in 2..n {
        if past_delta(points, last, i) {
            last = i - 1;
            put(point_at(points, last), kept, out);
            kept += 1;
        }
    }
    put(point_at(points, n - 1), kept, out);
    kept + 1
}
