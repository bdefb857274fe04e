// The areas of lists of points as the library is handed them.
ghost use Rattle.std.specs.Prelude.{◌<◌, ◌≡◌, length};
ghost use Rattle.areas.specs.Areas.{ends_kept};
ghost use Rattle.areas.specs.Calls.{twice_area_of, areas_by_of, areas_at_of};

use crate::{Areas, sums};
use point::Refusal;

// Twice the signed area of a list of points, closed from last to first. Of no points it is 0.
pub fn twice_area(points: &[i32]) -> Result<i64, Refusal>
    ensures { result ≡ twice_area_of points.now }
{
    point::judge_points(points)?;
    Ok(sums::area(points))
}

// The areas of a list and of the points that `kept` chooses: 1 for each that is kept and 0 for each that is not, with
// both ends, as the marks of a reduction are.
pub fn areas_by(points: &[i32], kept: &[u8]) -> Result<Areas, Refusal>
    ensures { result ≡ areas_by_of points.now kept.now }
{
    let n = points.len() / 2;
    point::judge_points(points)?;
    if n == 0 {
        return Err(Refusal::TooFew);
    }
    if point::bad_flags(kept, n) {
        return Err(Refusal::BadFlags);
    }
    if !ends_kept(kept) {
        return Err(Refusal::BadFlags);
    }
    Ok(sums::add_up(points, kept))
}

// The areas of a list and of the points that Douglas-Peucker keeps at a squared tolerance. A mark for each point, 1 if
// it is kept and 0 if not, is put at the start of `marks`.
pub fn areas_at(points: &[i32], tolerance: f64, marks: &mut [u8]) -> Result<Areas, Refusal>
    ensures { record { answer = result; out = marks.new } ≡ areas_at_of points.now tolerance marks.old }
{
    let n = points.len() / 2;
    point::judge_points(points)?;
    if n == 0 {
        return Err(Refusal::TooFew);
    }
    if point::bad_sq_tolerance(tolerance) {
        return Err(Refusal::BadTolerance);
    }
    if marks.len() < n {
        return Err(Refusal::NoRoom);
    }
    split::mark_waiting(points, tolerance, marks);
    Ok(sums::add_up(points, &marks[..n]))
}

// Whether both ends of a choice are kept.
fn ends_kept(kept: &[u8]) -> bool
    requires { 0 < length kept.now }
    ensures { result ≡ ends_kept kept.now }
{
    kept[0] != 0 && kept[kept.len() - 1] != 0
}
