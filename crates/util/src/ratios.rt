// Where two lines cross, and what that says of them.
ghost use Rattle.std.specs.Prelude.{◌||◌, ◌≡◌};
ghost use Rattle.util.specs.Answers.{intersection_number};
ghost use Rattle.util.specs.Ratios.{off, outside_of, inside_of, coincide_of};

use point::{PointF64, Refusal};

// Where two lines cross, or why that is not told. A refusal is a case of its own, and the methods below answer for
// it too, so this is no Result.
#[derive(Clone, Copy)]
pub enum Intersection {
    Parallel,
    // The midpoint of the first line.
    Coincide(PointF64),
    // The point, and where it lies on each line: 0 is the line's first point, 1 its second.
    Cross(PointF64, f64, f64),
    Refused(Refusal),
}

// How far past its line's first point, 0, or its second, 1, a ratio may lie and still be on it.
const E: f64 = 0.001;

impl Intersection {
    // Document 01's number.
    pub fn number(self) -> u8
        ensures { result ≡ intersection_number self }
    {
        match self {
            Intersection::Refused(refusal) => refusal.number(),
            Intersection::Parallel | Intersection::Coincide(_) | Intersection::Cross(_, _, _) => 0,
        }
    }

    // Whether the crossing lies off either line: not between its two points.
    #[tactic(auto, unfolding(crate::specs::Ratios::outside_of))]
    pub fn outside(self) -> bool
        ensures { result ≡ outside_of self }
    {
        match self {
            Intersection::Cross(_, mua, mub) => either_off(mua, mub),
            Intersection::Parallel | Intersection::Coincide(_) | Intersection::Refused(_) => false,
        }
    }

    // Whether the crossing lies on both lines: between the two points of each.
    #[tactic(auto, unfolding(crate::specs::Ratios::inside_of))]
    pub fn inside(self) -> bool
        ensures { result ≡ inside_of self }
    {
        match self {
            Intersection::Parallel => false,
            Intersection::Coincide(_) => true,
            Intersection::Cross(_, mua, mub) => !either_off(mua, mub),
            Intersection::Refused(_) => false,
        }
    }

    // Whether the lines are one.
    #[tactic(auto, unfolding(crate::specs::Ratios::coincide_of))]
    pub fn coincide(self) -> bool
        ensures { result ≡ coincide_of self }
    {
        match self {
            Intersection::Parallel => false,
            Intersection::Coincide(_) => true,
            Intersection::Cross(_, mua, mub) => mua.is_nan() & mub.is_nan(),
            Intersection::Refused(_) => false,
        }
    }
}

fn either_off(mua: f64, mub: f64) -> bool
    ensures { result ≡ (off mua || off mub) }
{
    off(mua) || off(mub)
}

// Whether a ratio lies off its line.
fn off(mu: f64) -> bool
    ensures { result ≡ off mu }
{
    mu < 0.0 - E || 1.0 + E < mu
}
