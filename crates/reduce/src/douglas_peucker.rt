// Douglas-Peucker, over the splits of the crate `split`.
ghost use Rattle.std.specs.Prelude.{◌≡◌};
ghost use Rattle.reduce.specs.DouglasPeucker.{douglas_peucker_of, counted_douglas_peucker_of};

use crate::Counted;
use crate::keep::keep_marked;
use point::Refusal;

// Puts the points that Douglas-Peucker keeps at the start of `out`, and a mark for each point of the
// list at the start of `marks`: 1 if it is kept, 0 if not.
pub fn simplify_douglas_peucker(
    points: &[i32],
    tolerance: f64,
    out: &mut [i32],
    marks: &mut [u8],
) -> Result<usize, Refusal>
    ensures { record { answer = result; out = (out.new, marks.new) }
        ≡ douglas_peucker_of points.now tolerance out.old marks.old }
{
    Ok(simplify_douglas_peucker_counted(points, tolerance, out, marks)?.points)
}

// The same, and answers how many distances were computed too.
pub fn simplify_douglas_peucker_counted(
    points: &[i32],
    tolerance: f64,
    out: &mut [i32],
    marks: &mut [u8],
) -> Result<Counted, Refusal>
    ensures { record { answer = result; out = (out.new, marks.new) }
        ≡ counted_douglas_peucker_of points.now tolerance out.old marks.old }
{
    let n = points.len() / 2;
    point::judge_points(points)?;
    if n == 0 {
        return Err(Refusal::TooFew);
    }
    if point::bad_sq_tolerance(tolerance) {
        return Err(Refusal::BadTolerance);
    }
    if out.len() / 2 < point::places_for(n) {
        return Err(Refusal::NoRoom);
    }
    if marks.len() < n {
        return Err(Refusal::NoRoom);
    }
    let distances = split::mark_waiting(points, tolerance, marks);
    Ok(Counted {
        points: keep_marked(points, marks, out),
        distances,
    })
}
