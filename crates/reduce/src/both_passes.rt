// Both passes together: the radial pass, and then Douglas-Peucker.
ghost use Rattle.std.specs.Prelude.{◌*◌, ◌≤◌, false, ◌||◌, ◌≡◌, leb, ltb, length, Ok, IfSome};
ghost use Rattle.std.proofs.Math.Option.{none};
ghost use Rattle.std.specs.Float.{binary64};
ghost use Rattle.std.specs.Float.Ieee.{of_bits, eq};
ghost use Rattle.point.specs.Limits.{bad_points, places_for};
ghost use Rattle.point.specs.Points.{points as points_of};
ghost use Rattle.reduce.specs.Radial.{radial};
ghost use Rattle.reduce.specs.inside.Scratch.{Filled, part_of};
ghost use Rattle.reduce.specs.Reduce.{reduce_refusal, reduction, reduce_of};

use crate::keep::{keep_all, keep_marked};
use crate::radial::keep_far;
use point::Refusal;

// Puts what is left of a list at a tolerance, in pixels, at the start of `out`: of what the radial
// pass keeps at half the squared tolerance, which stands at the start of `scratch`, the points that
// Douglas-Peucker keeps. A list of up to two points, or any at tolerance 0, is answered whole.
pub fn reduce(
    points: &[i32],
    tolerance: f64,
    out: &mut [i32],
    scratch: &mut [i32],
    marks: &mut [u8],
) -> Result<usize, Refusal>
    ensures { record { answer = result; out = (out.new, scratch.new, marks.new) }
        ≡ reduce_of points.now tolerance out.old scratch.old marks.old }
{
    point::judge_points(points)?;
    if point::bad_tolerance(tolerance) {
        return Err(Refusal::BadTolerance);
    }
    if short(points.len() / 2, out.len(), scratch.len(), marks.len()) {
        return Err(Refusal::NoRoom);
    }
    Ok(narrow(points, tolerance, out, scratch, marks))
}

// Whether buffers of so many values and marks are too short for `n` points.
fn short(n: usize, out: usize, scratch: usize, marks: usize) -> bool
    ensures { result ≡ (ltb out (places_for n * 2) || ltb scratch (n * 2) || ltb marks n) }
{
    out / 2 < point::places_for(n) || scratch / 2 < n || marks < n
}

// Answers a list that is not refused: whole, or the points that Douglas-Peucker keeps of the radial
// list. Nothing can fail here.
fn narrow(
    points: &[i32],
    tolerance: f64,
    out: &mut [i32],
    scratch: &mut [i32],
    marks: &mut [u8],
) -> usize
    requires { reduce_refusal points.now tolerance out.old scratch.old marks.old ≡ none }
    ensures { record { answer = Ok result; out = (out.new, scratch.new, marks.new) }
        ≡ reduction points.now tolerance out.old scratch.old marks.old }
{
    let whole = is_whole(points.len() / 2, tolerance);
    let sq_tolerance = tolerance * tolerance;
    let kept = radial_unless(whole, points, sq_tolerance * 0.5, scratch);
    let list = list_of(points, scratch, kept);
    if whole {
        keep_all(list, out);
        return list.len() / 2;
    }
    split::mark_waiting(list, sq_tolerance, marks);
    keep_marked(list, marks, out)
}

// Whether a list is answered whole.
fn is_whole(n: usize, tolerance: f64) -> bool
    ensures { result ≡ (leb n 2 || eq tolerance (of_bits binary64 0)) }
{
    n <= 2 || tolerance == 0.0
}

// Writes the radial list to the start of `scratch` and answers how many points it has; or nothing, where the
// list is answered whole.
fn radial_unless(whole: bool, points: &[i32], tolerance: f64, scratch: &mut [i32]) -> Option<usize>
    requires { (bad_points points.now ≡ false) × (length points.now ≤ length scratch.old) }
    ensures { Filled whole (radial tolerance (points_of points.now)) scratch.old result scratch.new }
{
    if whole {
        return None;
    }
    Some(keep_far(points, tolerance, scratch))
}

// The list that `reduce` goes on with, as part of one of two slices: the radial list, the first `kept` points of
// `scratch`, or the caller's points where there is none.
fn list_of<'a>(points: &'a [i32], scratch: &'a [i32], kept: Option<usize>) -> &'a [i32]
    requires { IfSome kept (λ n. n * 2 ≤ length scratch.now) }
    ensures { result.now ≡ part_of kept points.now scratch.now }
{
    match kept {
        Some(n) => &scratch[..n * 2],
        None => points,
    }
}
