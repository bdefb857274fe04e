// One-pixel staircases, as a walk along pixels leaves them, taken out of an outline.
ghost use Rattle.std.specs.Prelude.{◌≤◌, false, ◌≡◌, length};
ghost use Rattle.point.specs.Limits.{bad_points};
ghost use Rattle.point.specs.Points.{points as points_of};
ghost use Rattle.point.specs.inside.Written.{Handed};
ghost use Rattle.simplify.specs.Staircase.{remove_staircase, staircase_of};

use crate::steps::stays;
use point::{Refusal, judge, point_at, put};

// Puts the points that are left without staircases at the start of `out`. A point beside a step of
// one pixel stays where the outline, which runs clockwise or not, turns outwards.
pub fn remove_staircase(points: &[i32], clockwise: bool, out: &mut [i32]) -> Result<usize, Refusal>
    ensures { record { answer = result; out = out.new }
        ≡ staircase_of points.now clockwise out.old }
{
    judge(points, out.len())?;
    Ok(keep_outward(points, clockwise, out))
}

// Writes the points that stay, the first and the last in any case, and answers how many that is.
fn keep_outward(points: &[i32], clockwise: bool, out: &mut [i32]) -> usize
    requires { (bad_points points.now ≡ false) × (length points.now ≤ length out.old) }
    ensures { Handed (remove_staircase clockwise (points_of points.now)) out.old result out.new }
{
    let n = points.len() / 2;
    if n == 0 {
        return 0;
    }
    let mut before = point_at(points, 0);
    put(before, 0, out);
    if n == 1 {
        return 1;
    }
    let mut kept = 1;
    for i in 1..n - 1 {
        let p = point_at(points, i);
        let outside = stays(before, p, point_at(points, i + 1), clockwise);
        before = p;
        if outside {
            put(p, kept, out);
            kept += 1;
        }
    }
    put(point_at(points, n - 1), kept, out);
    kept + 1
}
