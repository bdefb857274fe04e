// Points of a list, copied to the start of a buffer: all of them, those that are marked, or those whose
// number is above a tolerance. Callers have judged the list and the room.
ghost use Rattle.std.specs.Prelude.{ℕ, ◌+◌, ◌*◌, ◌-◌, ◌<◌, ◌≤◌, max, List, [], ◌∷◌, ◌≡◌, length, drop};
ghost use Rattle.laws.specs.Lists.{over};
ghost use Rattle.point.specs.Limits.{places_for};
ghost use Rattle.point.specs.Points.{count, points as points_of, point_at};
ghost use Rattle.point.specs.inside.Written.{Left, Handed};
ghost use Rattle.reduce.specs.Kept.{kept, select};
ghost use Rattle.reduce.specs.Zoom.{marks_by};
ghost use Rattle.reduce.specs.inside.Place.{placed, Picks};
ghost use Rattle.point.specs.declared.PointI32.{PointI32};

// Copies a whole list, value by value: `copy_from_slice` calls memmove, and the archive for C calls memset
// alone. (`texts` copies bytes so too; the two crates have none in common that has code.)
pub(crate) fn keep_all(points: &[i32], out: &mut [i32])
    requires { length points.now ≤ length out.old }
    ensures { out.new ≡ over points.now out.old }
{
    for i in 0..points.len() {
        out[i] = points[i];
    }
}

// Copies the points whose mark is not 0, a single point of a list twice, and answers how many that is.
pub(crate) fn keep_marked(points: &[i32], marks: &[u8], out: &mut [i32]) -> usize
    requires { (count points.now ≤ length marks.now) × (places_for (count points.now) * 2 ≤ length out.old) }
    ensures { Handed (kept marks.now (points_of points.now)) out.old result out.new }
{
    if points.len() / 2 == 1 {
        copy_point(points, 0, 0, out);
        copy_point(points, 0, 1, out);
        return 2;
    }
    copy_marked(points, marks, out)
}

// Copies the points whose mark is not 0, and answers how many that is.
fn copy_marked(points: &[i32], marks: &[u8], out: &mut [i32]) -> usize
    requires { (count points.now ≤ length marks.now) × (count points.now ≤ count out.old) }
    ensures { Handed (select marks.now (points_of points.now)) out.old result out.new }
{
    copy_those(points, 0, points.len() / 2, 0, |k| marks[k] != 0, out)
}

// Copies both ends of a list, and the points between whose number is above the tolerance, and answers how
// many that is. One point is both ends.
pub(crate) fn keep_above(points: &[i32], numbers: &[f64], tolerance: f64, out: &mut [i32]) -> usize
    requires { (0 < count points.now) × (length numbers.now ≡ count points.now)
        × (places_for (count points.now) * 2 ≤ length out.old) }
    ensures { Handed (kept (marks_by tolerance numbers.now) (points_of points.now)) out.old result out.new }
{
    copy_point(points, 0, 0, out);
    let kept = copy_between(points, numbers, tolerance, out);
    copy_point(points, points.len() / 2 - 1, kept, out);
    kept + 1
}

// Where the first point is copied, copies those between the ends whose number is above the tolerance,
// and answers how many are then copied.
fn copy_between(points: &[i32], numbers: &[f64], tolerance: f64, out: &mut [i32]) -> usize
    requires { (0 < count points.now) × (length numbers.now ≡ count points.now) × (count points.now ≤ count out.old)
        × Left (kept (marks_by tolerance numbers.now) (points_of points.now)) out.old 1
        (drop 1 (kept (marks_by tolerance numbers.now) (points_of points.now))) out.old }
    ensures { (result < count out.new)
        × Left (kept (marks_by tolerance numbers.now) (points_of points.now)) out.old result
        (point_at points.now (count points.now - 1) ∷ []) out.new }
{
    copy_those(
        points,
        1,
        numbers.len() - 1,
        1,
        |k| tolerance < numbers[k],
        out,
    )
}

// Copies the points from one position up to another that pass a test, behind the `kept` points that are copied
// already, and answers how many are then copied.
fn copy_those<F: Fn(usize) -> bool>(
    points: &[i32],
    from: usize,
    to: usize,
    kept: usize,
    keeps: F,
    out: &mut [i32],
) -> usize
    requires { (to ≤ count points.now) × (kept + (to - from) ≤ count out.old) × ((k : ℕ) → k < to → F.pre keeps k) }
    ensures { (rest : ℕ → List PointI32) → Picks (F.post keeps) points.now from to rest →
        Left (rest 0) out.old kept (rest from) out.old → Left (rest 0) out.old result (rest (max from to)) out.new }
{
    let mut kept = kept;
    for k in from..to {
        if keeps(k) {
            copy_point(points, k, kept, out);
            kept += 1;
        }
    }
    kept
}

// Copies the point at position `k` of a list to the place `at` of `out`. Here, in the innermost loops,
// nothing is tested.
#[tactic(auto, unfolding(crate::specs::inside::Place::placed))]
fn copy_point(points: &[i32], k: usize, at: usize, out: &mut [i32])
    requires { (k < count points.now) × (at < count out.old) }
    ensures { out.new ≡ placed points.now k at out.old }
{
    let x = points[k * 2];
    let y = points[k * 2 + 1];
    out[at * 2] = x;
    out[at * 2 + 1] = y;
}
