// Midpoints and lengths.
ghost use Rattle.std.specs.Prelude.{◌≡◌, IsTrue, Float};
ghost use Rattle.point.specs.Limits.{point_in_range};
ghost use Rattle.util.specs.Lengths.{half, middle, middle_of, length_of, long, long_i32, measured};

use point::{PointF64, PointI32, Ranged, Refusal};

// The midpoint of two points.
pub fn find_mid_point(p1: PointF64, p2: PointF64) -> Result<PointF64, Refusal>
    ensures { result ≡ middle_of p1 p2 }
{
    if !p1.in_range() || !p2.in_range() {
        return Err(Refusal::BadPoint);
    }
    Ok(middle(p1, p2))
}

// The point halfway between any two points.
pub fn middle(p1: PointF64, p2: PointF64) -> PointF64
    ensures { result ≡ middle p1 p2 }
{
    PointF64 {
        x: half(p1.x, p2.x),
        y: half(p1.y, p2.y),
    }
}

fn half(a: f64, b: f64) -> f64
    ensures { result ≡ half a b }
{
    (a + b) / 2.0
}

// A vector from (0,0) to a point, of either kind of numbers.
pub trait Vector: Ranged {
    ghost long: { Self → Float };

    // How long it is.
    fn norm(self) -> Result<f64, Refusal>
        ensures { result ≡ measured Self.fits long self };
}

impl Vector for PointF64 {
    ghost long = { long };

    fn norm(self) -> Result<f64, Refusal> {
        if !self.in_range() {
            return Err(Refusal::BadPoint);
        }
        Ok(length(self.x, self.y))
    }
}

impl Vector for PointI32 {
    ghost long = { long_i32 };

    fn norm(self) -> Result<f64, Refusal> {
        if !self.in_range() {
            return Err(Refusal::BadPoint);
        }
        Ok(length_i32(self))
    }
}

// How long a vector of whole numbers is. Within the limits its square fits.
#[tactic(auto, unfolding(crate::specs::Lengths::length_of_i32))]
fn length_i32(p: PointI32) -> f64
    requires { IsTrue (point_in_range p) }
    ensures { result ≡ long_i32 p }
{
    by_halves::sqrt(f64::from(p.x * p.x + p.y * p.y))
}

// How long any vector is.
#[tactic(auto, unfolding(crate::specs::Lengths::length_of))]
pub fn length(x: f64, y: f64) -> f64
    ensures { result ≡ length_of x y }
{
    by_halves::sqrt(x * x + y * y)
}
