// The tests that every call makes of what it is handed.
ghost use Rattle.std.specs.Prelude.{◌≡◌, Bool};
ghost use Rattle.point.specs.Limits.{too_many, in_range, point_in_range, within, in_range_f64, point_in_range_f64, bad_list, bad_tolerance, bad_sq_tolerance, places_for};
ghost use Rattle.point.specs.Outcomes.{list_refusal, refusal, verdict};

use crate::refusal::Refusal;
use crate::{PointF64, PointI32};

// A list of points is at most 4,096 points long: x, y, x, y.
pub const MOST_VALUES: usize = 8192;

// How far from zero a coordinate may lie. The square of a distance then fits an i32.
pub const FARTHEST: i32 = 16383;

const FARTHEST_F64: f64 = 16383.0;

// The widest tolerance, and its square.
const WIDEST: f64 = 65536.0;

const WIDEST_SQ: f64 = 4294967296.0;

// Whether a list of so many values is too long.
pub fn too_many(values: usize) -> bool
    ensures { result ≡ too_many values }
{
    MOST_VALUES < values
}

// Whether a list has half a point, or a coordinate out of range. It looks at all of a list, whatever it
// finds: so a processor can look at several at once.
pub fn bad_points<C: Ranged>(points: &[C]) -> bool
    ensures { result ≡ bad_list C.fits points.now }
{
    if points.len() % 2 != 0 {
        return true;
    }
    let mut fine = true;
    for value in points {
        fine &= value.in_range();
    }
    !fine
}

// Whether a tolerance is NaN or out of range. (Two calls for two limits: each is one test.)
pub fn bad_tolerance(tolerance: f64) -> bool
    ensures { result ≡ bad_tolerance tolerance }
{
    !within(0.0, tolerance, WIDEST)
}

// Whether a squared tolerance is NaN or out of range.
pub fn bad_sq_tolerance(tolerance: f64) -> bool
    ensures { result ≡ bad_sq_tolerance tolerance }
{
    !within(0.0, tolerance, WIDEST_SQ)
}

// How many places a list of so many points asks of the buffer for its answer. One point may be
// answered twice.
pub fn places_for(points: usize) -> usize
    ensures { result ≡ places_for points }
{
    if points == 1 { 2 } else { points }
}

// What may lie out of range: a coordinate, and a point by both of its coordinates.
pub trait Ranged: Copy {
    ghost fits: { Self → Bool };

    // Whether it is in range. A NaN and an infinity are not.
    fn in_range(self) -> bool
        ensures { result ≡ fits self };
}

impl Ranged for i32 {
    ghost fits = { in_range };

    fn in_range(self) -> bool {
        -FARTHEST <= self && self <= FARTHEST
    }
}

impl Ranged for f64 {
    ghost fits = { in_range_f64 };

    fn in_range(self) -> bool {
        within(-FARTHEST_F64, self, FARTHEST_F64)
    }
}

impl Ranged for PointI32 {
    ghost fits = { point_in_range };

    fn in_range(self) -> bool {
        self.x.in_range() && self.y.in_range()
    }
}

impl Ranged for PointF64 {
    ghost fits = { point_in_range_f64 };

    fn in_range(self) -> bool {
        self.x.in_range() && self.y.in_range()
    }
}

// From `low` to `high`, both counted in. Of a NaN it is false.
pub fn within(low: f64, value: f64, high: f64) -> bool
    ensures { result ≡ within low value high }
{
    low <= value && value <= high
}

// The lowest refusal that applies to a list of points.
pub fn judge_points<C: Ranged>(points: &[C]) -> Result<(), Refusal>
    ensures { result ≡ verdict (list_refusal C.fits points.now) }
{
    if too_many(points.len()) {
        return Err(Refusal::TooMany);
    }
    if bad_points(points) {
        return Err(Refusal::BadPoint);
    }
    Ok(())
}

// The lowest refusal that applies to a list and to the room for its answer, in values.
pub fn judge(points: &[i32], room: usize) -> Result<(), Refusal>
    ensures { result ≡ verdict (refusal points.now room) }
{
    judge_points(points)?;
    if room < places_for(points.len() / 2) * 2 {
        return Err(Refusal::NoRoom);
    }
    Ok(())
}
