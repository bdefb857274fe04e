// The turn at one point of a list.
ghost use Rattle.std.specs.Prelude.{◌≤◌, ◌≡◌, nat_abs};
ghost use Rattle.point.specs.inside.Near.{Near};
ghost use Rattle.corners.specs.Corners.{vector, dot, sharp, turns};
ghost use Rattle.corners.specs.inside.Sizes.{Short};

use crate::Pair;
use point::PointI32;

// The pair of a call, judged.
#[derive(Clone, Copy)]
pub(crate) struct Angle {
    pub pair: Pair,
    // It is small enough for nothing to leave its type.
    ghost cosine: { nat_abs pair.c ≤ 1000 },
    ghost sine: { nat_abs pair.s ≤ 1000 },
}

impl Angle {
    // Whether the turn at `p` is at least as sharp as the pair says. From an equal point or to one there is none.
    pub(crate) fn turns(self, from: PointI32, p: PointI32, to: PointI32) -> bool
        requires { Near from × Near p × Near to }
        ensures { result ≡ turns self.pair from p to }
    {
        if p == from || p == to {
            return false;
        }
        self.sharp(vector(from, p), vector(p, to))
    }

    // Whether the turn from one vector to another is at least as sharp as the pair says.
    fn sharp(self, v1: PointI32, v2: PointI32) -> bool
        requires { Short v1 × Short v2 }
        ensures { result ≡ sharp self.pair v1 v2 }
    {
        let cross = util::cross(v1.x, v1.y, v2.x, v2.y).abs();
        let dot = i64::from(dot(v1, v2));
        0 <= i64::from(self.pair.c) * cross - i64::from(self.pair.s) * dot
    }
}

// The vector from one point to another.
fn vector(p: PointI32, q: PointI32) -> PointI32
    requires { Near p × Near q }
    ensures { (result ≡ vector p q) × Short result }
{
    PointI32 {
        x: q.x - p.x,
        y: q.y - p.y,
    }
}

// The dot product of two vectors.
fn dot(v1: PointI32, v2: PointI32) -> i32
    requires { Short v1 × Short v2 }
    ensures { (result ≡ dot v1 v2) × (nat_abs result ≤ 2147221512) }
{
    v1.x * v2.x + v1.y * v2.y
}
