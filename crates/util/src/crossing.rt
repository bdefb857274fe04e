// Where two lines cross, operation by operation as the Rust computes it.
ghost use Rattle.std.specs.Prelude.{◌≡◌};
ghost use Rattle.util.specs.Crossing.{negligible, across, along, judged, crossing, intersection_of};

use crate::lengths::middle;
use crate::ratios::Intersection;
use point::{PointF64, Ranged, Refusal};

// What lies between this and its negative counts as 0.
const EPSILON: f64 = 0.0000001;

// Where the line through `p1` and `p2` crosses the one through `p3` and `p4`.
pub fn find_intersection(p1: PointF64, p2: PointF64, p3: PointF64, p4: PointF64) -> Intersection
    ensures { result ≡ intersection_of p1 p2 p3 p4 }
{
    if !p1.in_range() || !p2.in_range() || !p3.in_range() || !p4.in_range() {
        return Intersection::Refused(Refusal::BadPoint);
    }
    crossing(p1, p2, p3, p4)
}

// Where the two lines cross, for any four points.
#[tactic(auto, unfolding(crate::specs::Crossing::crossing))]
fn crossing(p1: PointF64, p2: PointF64, p3: PointF64, p4: PointF64) -> Intersection
    ensures { result ≡ crossing p1 p2 p3 p4 }
{
    let denom = across(p4.y - p3.y, p2.x - p1.x, p4.x - p3.x, p2.y - p1.y);
    let numera = across(p4.x - p3.x, p1.y - p3.y, p4.y - p3.y, p1.x - p3.x);
    let numerb = across(p2.x - p1.x, p1.y - p3.y, p2.y - p1.y, p1.x - p3.x);
    judged(p1, p2, denom, numera, numerb)
}

// Where they cross, if they do: both ratios have the denominator `denom`, the first line's the numerator
// `numera`, the second's `numerb`.
fn judged(p1: PointF64, p2: PointF64, denom: f64, numera: f64, numerb: f64) -> Intersection
    ensures { result ≡ judged p1 p2 denom numera numerb }
{
    if negligible(denom) {
        if negligible(numera) && negligible(numerb) {
            return Intersection::Coincide(middle(p1, p2));
        }
        return Intersection::Parallel;
    }
    let mua = numera / denom;
    let mub = numerb / denom;
    Intersection::Cross(along(p1, p2, mua), mua, mub)
}

// The point of a line at a ratio.
fn along(p: PointF64, q: PointF64, mu: f64) -> PointF64
    ensures { result ≡ along p q mu }
{
    PointF64 {
        x: p.x + mu * (q.x - p.x),
        y: p.y + mu * (q.y - p.y),
    }
}

// The cross product of two vectors, in the order of the Rust's operations.
fn across(a: f64, b: f64, c: f64, d: f64) -> f64
    ensures { result ≡ across a b c d }
{
    a * b - c * d
}

// Whether a number counts as 0.
#[tactic(auto, unfolding(crate::specs::Crossing::negligible))]
fn negligible(v: f64) -> bool
    ensures { result ≡ negligible v }
{
    -EPSILON < v && v < EPSILON
}
