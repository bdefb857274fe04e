// Fewer points for a walked outline: first one-pixel staircases go, and then the points that it can
// do without at little cost. The list that stands between the two passes, 8,192 values, lies on the stack.
ghost use Rattle.std.specs.Prelude.{◌≡◌};
ghost use Rattle.simplify.specs.Simplify.{simplify_of};

use crate::penalties::limit_penalties;
use crate::staircase::remove_staircase;
use point::{Refusal, judge};

// Puts the points that are left after both passes at the start of `out`. What the first leaves stands
// in a list of its own.
pub fn simplify(points: &[i32], clockwise: bool, out: &mut [i32]) -> Result<usize, Refusal>
    ensures { record { answer = result; out = out.new }
        ≡ simplify_of points.now clockwise out.old }
{
    judge(points, out.len())?;
    let mut between = [0; 8192];
    let kept = remove_staircase(points, clockwise, &mut between)?;
    let left = &between[..kept * 2];
    limit_penalties(left, out)
}
