// The points of a zoom, by their numbers.
ghost use Rattle.std.specs.Prelude.{◌≡◌};
ghost use Rattle.reduce.specs.Zoom.{zoom_of};

use crate::keep::keep_above;
use point::Refusal;

// Puts the points that are kept at a squared tolerance at the start of `out`: both ends, and between
// them those whose number is greater.
pub fn zoom(
    points: &[i32],
    numbers: &[f64],
    tolerance: f64,
    out: &mut [i32],
) -> Result<usize, Refusal>
    ensures { record { answer = result; out = out.new }
        ≡ zoom_of points.now numbers.now tolerance out.old }
{
    let n = points.len() / 2;
    point::judge_points(points)?;
    if numbers.len() != n {
        return Err(Refusal::BadPoint);
    }
    if n == 0 {
        return Err(Refusal::TooFew);
    }
    if point::bad_sq_tolerance(tolerance) {
        return Err(Refusal::BadTolerance);
    }
    if out.len() / 2 < point::places_for(n) {
        return Err(Refusal::NoRoom);
    }
    Ok(keep_above(points, numbers, tolerance, out))
}
