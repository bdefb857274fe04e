// Where two lines cross, handed out as values and read from them.
ghost use Rattle.std.specs.Prelude.{◌≤◌, ◌≡◌, length};
ghost use Rattle.util.specs.Crossing.{intersection_of};
ghost use Rattle.util.specs.Ratios.{outside_of, inside_of, coincide_of};
ghost use Rattle.sandline_c.specs.Handed.{crossing_for_c};
ghost use Rattle.sandline_c.specs.Read.{point_f64_at, crossing_from};

use point::PointF64;
use util::Intersection;

// Where two lines cross, each given by two of its points, x, y, x, y: no values where they are parallel,
// two, the midpoint of the first, where they coincide, and four, the point and both ratios, where they
// cross.
#[unsafe(no_mangle)]
pub extern "C" fn sandline_find_intersection(
    first: &[f64; 4],
    second: &[f64; 4],
    values: &mut [f64; 4],
    count: &mut [usize; 1],
) -> u8
    ensures { record { answer = result; out = (values.new, count.new) }
        ≡ crossing_for_c (intersection_of (point_f64_at first.now 0) (point_f64_at first.now 1)
        (point_f64_at second.now 0) (point_f64_at second.now 1)) values.old }
{
    let [x1, y1, x2, y2] = *first;
    let [x3, y3, x4, y4] = *second;
    let found = util::find_intersection(
        PointF64 { x: x1, y: y1 },
        PointF64 { x: x2, y: y2 },
        PointF64 { x: x3, y: y3 },
        PointF64 { x: x4, y: y4 },
    );
    put_crossing(found, values, count)
}

// A crossing, its values put at the start of an array and counted.
#[tactic(auto, using(crate::proofs::Handed::set_two, crate::proofs::Handed::set_four), unfolding(crate::specs::Handed::crossing_for_c))]
fn put_crossing(found: Intersection, values: &mut [f64], count: &mut [usize; 1]) -> u8
    requires { 4 ≤ length values.old }
    ensures { record { answer = result; out = (values.new, count.new) } ≡ crossing_for_c found values.old }
{
    match found {
        Intersection::Parallel => {
            *count = [0];
            0
        }
        Intersection::Coincide(p) => {
            let x = p.x;
            let y = p.y;
            values[0] = x;
            values[1] = y;
            *count = [2];
            0
        }
        Intersection::Cross(p, mua, mub) => {
            let x = p.x;
            let y = p.y;
            values[0] = x;
            values[1] = y;
            values[2] = mua;
            values[3] = mub;
            *count = [4];
            0
        }
        Intersection::Refused(refusal) => {
            *count = [0];
            refusal.number()
        }
    }
}

// Whether a crossing lies off either line: not between its two points. The values are those that
// `sandline_find_intersection` put, as many as it counted.
#[unsafe(no_mangle)]
pub extern "C" fn sandline_outside(values: &[f64]) -> bool
    ensures { result ≡ outside_of (crossing_from values.now) }
{
    read_crossing(values).outside()
}

// Whether a crossing lies on both lines: between the two points of each.
#[unsafe(no_mangle)]
pub extern "C" fn sandline_inside(values: &[f64]) -> bool
    ensures { result ≡ inside_of (crossing_from values.now) }
{
    read_crossing(values).inside()
}

// Whether the lines are one.
#[unsafe(no_mangle)]
pub extern "C" fn sandline_coincide(values: &[f64]) -> bool
    ensures { result ≡ coincide_of (crossing_from values.now) }
{
    read_crossing(values).coincide()
}

// The crossing that values stand for.
#[tactic(auto, unfolding(crate::specs::Read::crossing_from))]
fn read_crossing(values: &[f64]) -> Intersection
    ensures { result ≡ crossing_from values.now }
{
    match *values {
        [x, y, mua, mub] => Intersection::Cross(PointF64 { x, y }, mua, mub),
        [x, y] => Intersection::Coincide(PointF64 { x, y }),
        _ => Intersection::Parallel,
    }
}
