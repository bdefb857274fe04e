// The nearest points that differ from a run of equal ones, of `p`, among the first `m` of a list.
ghost use Rattle.std.specs.Prelude.{◌<◌, ◌≡◌};
ghost use Rattle.point.specs.Points.{point_at};
ghost use Rattle.point.specs.inside.Near.{Near};
ghost use Rattle.corners.specs.Corners.{nearest};
ghost use Rattle.corners.specs.inside.Places.{back, ahead, To, FirstOther};

use crate::outline::Outline;
use point::PointI32;

impl<'a> Outline<'a> {
    // What the first run turns from: on a closed list the last point that differs from it. Where there is none it is
    // `p`.
    pub(crate) fn before_first(&self, p: PointI32) -> PointI32
        requires { p ≡ point_at self.now.points.now 0 }
        ensures { Near result × (result ≡ nearest self.now.closed p (back self.now.points.now 0)
            (ahead self.now.points.now self.now.m 0)) }
    {
        if !self.closed {
            return p;
        }
        for k in (1..self.m).rev() {
            let q = point::point_at(self.points, k);
            if p != q {
                return q;
            }
        }
        p
    }

    // What a run from `i` up to `k` turns to: the point at `k`. Past the last one it is, on a closed list, the first
    // that differs. Where there is none it is `p`.
    pub(crate) fn behind_run(&self, i: usize, k: usize, p: PointI32) -> PointI32
        requires { (i < self.now.m) × (p ≡ point_at self.now.points.now i) }
        ensures { To self.now.points.now self.now.closed self.now.m i k p result }
    {
        if k < self.m {
            return point::point_at(self.points, k);
        }
        if !self.closed {
            return p;
        }
        point::point_at(self.points, first_other(self.points, p, i))
    }
}

// The first position before `end` whose point differs from `p`. Where there is none it is `end`, and no Option: the
// point there is `p` itself, which is the answer then.
fn first_other(points: &[i32], p: PointI32, end: usize) -> usize
    ensures { FirstOther points.now p 0 end result }
{
    for k in 0..end {
        if p != point::point_at(points, k) {
            return k;
        }
    }
    end
}
