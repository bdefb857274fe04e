// What it costs to leave a point out: Heron's formula, operation by operation as the Rust has it.
ghost use Rattle.std.specs.Prelude.{◌≤◌, ◌≡◌, nat_abs};
ghost use Rattle.point.specs.inside.Near.{Near};
ghost use Rattle.simplify.specs.Penalties.{sq, side, heron, penalty};

use point::PointI32;

// What it costs to leave `b` out between `a` and `c`, whose distance is handed in.
#[tactic(auto, unfolding(crate::specs::Penalties::penalty))]
pub(crate) fn evaluate_penalty(a: PointI32, b: PointI32, c: PointI32, l3: f64) -> f64
    requires { Near a × Near b × Near c × (l3 ≡ side c a) }
    ensures { result ≡ penalty a b c }
{
    heron(side(a, b), side(b, c), l3)
}

// The penalty of three sides, of which the third takes the place of the others.
fn heron(l1: f64, l2: f64, l3: f64) -> f64
    ensures { result ≡ heron l1 l2 l3 }
{
    let p = (l1 + l2 + l3) / 2.0;
    let area = by_halves::sqrt(p * (p - l1) * (p - l2) * (p - l3));
    area * area / l3
}

// The length of the side between two points.
pub(crate) fn side(p: PointI32, q: PointI32) -> f64
    requires { Near p × Near q }
    ensures { result ≡ side p q }
{
    by_halves::sqrt(sq(p.x - q.x) + sq(p.y - q.y))
}

// The square of a difference.
fn sq(d: i32) -> f64
    requires { nat_abs d ≤ 32766 }
    ensures { result ≡ sq d }
{
    f64::from(d * d)
}
