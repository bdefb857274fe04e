// Two points side by side.
ghost use Rattle.std.specs.Prelude.{◌≡◌};
ghost use Rattle.point.specs.Points.{same_point};

use crate::PointI32;

// Whether two points are one: what `==` says, for callers who want it by name.
pub fn same_point(p: PointI32, q: PointI32) -> bool
    ensures { result ≡ same_point p q }
{
    p == q
}
