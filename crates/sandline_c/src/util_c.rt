// Geometry: areas, midpoints, lengths, and where two lines cross.
pub(crate) mod crossing;

ghost use Rattle.std.specs.Prelude.{◌≡◌};
ghost use Rattle.point.specs.Points.{point_at};
ghost use Rattle.util.specs.Area.{signed_area_of};
ghost use Rattle.util.specs.Lengths.{middle_of, norm_of, norm_of_i32};
ghost use Rattle.sandline_c.specs.Handed.{signed_area_for_c, mid_point_for_c, length_for_c};
ghost use Rattle.sandline_c.specs.Read.{point_from, point_f64_from, point_f64_at};

use point::{PointF64, PointI32, Refusal};
use util::Vector;

// The signed area of three points, x, y, x, y, x, y.
#[unsafe(no_mangle)]
pub extern "C" fn sandline_signed_area(points: &[i32; 6], area: &mut [i32; 1]) -> u8
    ensures { record { answer = result; out = area.new }
        ≡ signed_area_for_c (signed_area_of (point_at points.now 0) (point_at points.now 1) (point_at points.now 2)) area.old }
{
    let [x1, y1, x2, y2, x3, y3] = *points;
    let first = PointI32 { x: x1, y: y1 };
    let second = PointI32 { x: x2, y: y2 };
    match util::signed_area(first, second, PointI32 { x: x3, y: y3 }) {
        Ok(a) => {
            *area = [a];
            0
        }
        Err(refusal) => refusal.number(),
    }
}

// The midpoint of two points, x, y, x, y.
#[unsafe(no_mangle)]
pub extern "C" fn sandline_find_mid_point(points: &[f64; 4], middle: &mut [f64; 2]) -> u8
    ensures { record { answer = result; out = middle.new }
        ≡ mid_point_for_c (middle_of (point_f64_at points.now 0) (point_f64_at points.now 1)) middle.old }
{
    let [x1, y1, x2, y2] = *points;
    match util::find_mid_point(PointF64 { x: x1, y: y1 }, PointF64 { x: x2, y: y2 }) {
        Ok(p) => {
            *middle = [p.x, p.y];
            0
        }
        Err(refusal) => refusal.number(),
    }
}

// The length of a vector.
#[unsafe(no_mangle)]
pub extern "C" fn sandline_norm(x: f64, y: f64, length: &mut [f64; 1]) -> u8
    ensures { record { answer = result; out = length.new } ≡ length_for_c (norm_of (point_f64_from x y)) length.old }
{
    put_length(PointF64 { x, y }.norm(), length)
}

// The length of a vector of whole numbers.
#[unsafe(no_mangle)]
pub extern "C" fn sandline_norm_i32(x: i32, y: i32, length: &mut [f64; 1]) -> u8
    ensures { record { answer = result; out = length.new } ≡ length_for_c (norm_of_i32 (point_from x y)) length.old }
{
    put_length(PointI32 { x, y }.norm(), length)
}

// A length, put where it was asked for.
fn put_length(answer: Result<f64, Refusal>, length: &mut [f64; 1]) -> u8
    ensures { record { answer = result; out = length.new } ≡ length_for_c answer length.old }
{
    match answer {
        Ok(l) => {
            *length = [l];
            0
        }
        Err(refusal) => refusal.number(),
    }
}
