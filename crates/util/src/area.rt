// Which way three points turn, in whole numbers.
ghost use Rattle.std.specs.Prelude.{◌≡◌};
ghost use Rattle.util.specs.Area.{cross_of, signed_area_of};

use point::{PointI32, Ranged, Refusal};

// The cross product of two vectors. It fits whatever they are.
pub fn cross(x1: i32, y1: i32, x2: i32, y2: i32) -> i64
    ensures { result ≡ cross_of x1 y1 x2 y2 }
{
    i64::from(x1) * i64::from(y2) - i64::from(x2) * i64::from(y1)
}

// Twice the area of the triangle of three points: positive where they turn clockwise, y down. Within the
// limits it fits.
pub fn signed_area(p1: PointI32, p2: PointI32, p3: PointI32) -> Result<i32, Refusal>
    ensures { result ≡ signed_area_of p1 p2 p3 }
{
    if !p1.in_range() || !p2.in_range() || !p3.in_range() {
        return Err(Refusal::BadPoint);
    }
    Ok((p2.x - p1.x) * (p3.y - p1.y) - (p3.x - p1.x) * (p2.y - p1.y))
}
