// Zooms: fewer points, the wider the tolerance.
ghost use Rattle.std.specs.Prelude.{◌≡◌};
ghost use Rattle.reduce.specs.Radial.{radial_of};
ghost use Rattle.reduce.specs.DouglasPeucker.{douglas_peucker_of, counted_douglas_peucker_of};
ghost use Rattle.reduce.specs.Reduce.{reduce_of};
ghost use Rattle.reduce.specs.Numbers.{numbered_of, counted_numbered_of};
ghost use Rattle.reduce.specs.Zoom.{zoom_of};
ghost use Rattle.sandline_c.specs.Handed.{answer_for_c, counted_for_c};

use crate::handing::{hand, hand_counted};

// The points that the radial pass leaves at a squared tolerance.
#[unsafe(no_mangle)]
pub extern "C" fn sandline_simplify_radial_dist(
    points: &[i32],
    tolerance: f64,
    out: &mut [i32],
    count: &mut [usize; 1],
) -> u8
    ensures { record { answer = result; out = (out.new, count.new) }
        ≡ answer_for_c (radial_of points.now tolerance out.old) }
{
    hand(reduce::simplify_radial_dist(points, tolerance, out), count)
}

// The points that Douglas-Peucker leaves at a squared tolerance, and a mark for each point of the list.
#[unsafe(no_mangle)]
pub extern "C" fn sandline_simplify_douglas_peucker(
    points: &[i32],
    tolerance: f64,
    out: &mut [i32],
    marks: &mut [u8],
    count: &mut [usize; 1],
) -> u8
    ensures { record { answer = result; out = ((out.new, marks.new), count.new) }
        ≡ answer_for_c (douglas_peucker_of points.now tolerance out.old marks.old) }
{
    hand(
        reduce::simplify_douglas_peucker(points, tolerance, out, marks),
        count,
    )
}

// The same, and how many distances were computed.
#[unsafe(no_mangle)]
pub extern "C" fn sandline_simplify_douglas_peucker_counted(
    points: &[i32],
    tolerance: f64,
    out: &mut [i32],
    marks: &mut [u8],
    count: &mut [usize; 1],
    distances: &mut [usize; 1],
) -> u8
    ensures { record { answer = result; out = ((out.new, marks.new), count.new, distances.new) }
        ≡ counted_for_c (counted_douglas_peucker_of points.now tolerance out.old marks.old) }
{
    hand_counted(
        reduce::simplify_douglas_peucker_counted(points, tolerance, out, marks),
        count,
        distances,
    )
}

// The points that are left at a tolerance after both, the radial pass first.
#[unsafe(no_mangle)]
pub extern "C" fn sandline_reduce(
    points: &[i32],
    tolerance: f64,
    out: &mut [i32],
    scratch: &mut [i32],
    marks: &mut [u8],
    count: &mut [usize; 1],
) -> u8
    ensures { record { answer = result; out = ((out.new, scratch.new, marks.new), count.new) }
        ≡ answer_for_c (reduce_of points.now tolerance out.old scratch.old marks.old) }
{
    hand(
        reduce::reduce(points, tolerance, out, scratch, marks),
        count,
    )
}

// One number for each point.
#[unsafe(no_mangle)]
pub extern "C" fn sandline_numbers(points: &[i32], out: &mut [f64], count: &mut [usize; 1]) -> u8
    ensures { record { answer = result; out = (out.new, count.new) }
        ≡ answer_for_c (numbered_of points.now out.old) }
{
    hand(reduce::numbers(points, out), count)
}

// The same, and how many distances were computed.
#[unsafe(no_mangle)]
pub extern "C" fn sandline_numbers_counted(
    points: &[i32],
    out: &mut [f64],
    count: &mut [usize; 1],
    distances: &mut [usize; 1],
) -> u8
    ensures { record { answer = result; out = (out.new, count.new, distances.new) }
        ≡ counted_for_c (counted_numbered_of points.now out.old) }
{
    hand_counted(reduce::numbers_counted(points, out), count, distances)
}

// The points that a squared tolerance keeps, by their numbers.
#[unsafe(no_mangle)]
pub extern "C" fn sandline_zoom(
    points: &[i32],
    numbers: &[f64],
    tolerance: f64,
    out: &mut [i32],
    count: &mut [usize; 1],
) -> u8
    ensures { record { answer = result; out = (out.new, count.new) }
        ≡ answer_for_c (zoom_of points.now numbers.now tolerance out.old) }
{
    hand(reduce::zoom(points, numbers, tolerance, out), count)
}
