// A list of points x, y, x, y, read and written one point at a time.
//
// The calls are total: a value that is not there is read as 0, and a place that is not there is
// left out. In a loop that stays below `points.len() / 2` the compiler drops the test of a read.
ghost use Rattle.std.specs.Prelude.{◌+◌, ◌*◌, ◌≤◌, ◌≡◌, set};
ghost use Rattle.point.specs.Points.{count, point_at, seen};

use crate::PointI32;

// The point at a position.
pub fn point_at(points: &[i32], k: usize) -> PointI32
    ensures { result ≡ point_at points.now k }
{
    if k < points.len() / 2 {
        return PointI32 {
            x: points[k * 2],
            y: points[k * 2 + 1],
        };
    }
    half_point(points, k)
}

// What is read past the last whole point: the x of half a point and 0, or (0,0).
fn half_point(points: &[i32], k: usize) -> PointI32
    requires { count points.now ≤ k }
    ensures { result ≡ point_at points.now k }
{
    if k < points.len() - points.len() / 2 {
        return PointI32 {
            x: points[k * 2],
            y: 0,
        };
    }
    PointI32 { x: 0, y: 0 }
}

// How many of `n` points are looked at: of a closed list the last, which repeats the first, is not.
pub fn seen(n: usize, closed: bool) -> usize
    ensures { result ≡ seen n closed }
{
    if n == 0 {
        return 0;
    }
    if closed { n - 1 } else { n }
}

// Writes a point at a position.
pub fn put(p: PointI32, k: usize, out: &mut [i32])
    ensures { out.new ≡ set (set out.old (k * 2) p.x) (k * 2 + 1) p.y }
{
    if k < out.len() / 2 {
        let x = p.x;
        let y = p.y;
        out[k * 2] = x;
        out[k * 2 + 1] = y;
        return;
    }
    put_half(p, k, out);
}

// Writes a point past the last whole place: its x where half a place is left, or nothing.
fn put_half(p: PointI32, k: usize, out: &mut [i32])
    requires { count out.old ≤ k }
    ensures { out.new ≡ set out.old (k * 2) p.x }
{
    if k < out.len() - out.len() / 2 {
        let x = p.x;
        out[k * 2] = x;
    }
}
