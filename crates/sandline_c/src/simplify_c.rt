// Simplification: an outline without staircases, and without the points that cost little.
ghost use Rattle.std.specs.Prelude.{◌≡◌};
ghost use Rattle.simplify.specs.Staircase.{staircase_of};
ghost use Rattle.simplify.specs.Penalties.{penalties_of};
ghost use Rattle.simplify.specs.Simplify.{simplify_of};
ghost use Rattle.sandline_c.specs.Handed.{answer_for_c};

use crate::handing::hand;

// The points that are left without one-pixel staircases.
#[unsafe(no_mangle)]
pub extern "C" fn sandline_remove_staircase(
    points: &[i32],
    clockwise: bool,
    out: &mut [i32],
    count: &mut [usize; 1],
) -> u8
    ensures { record { answer = result; out = (out.new, count.new) }
        ≡ answer_for_c (staircase_of points.now clockwise out.old) }
{
    hand(simplify::remove_staircase(points, clockwise, out), count)
}

// The points that are left without those that cost little.
#[unsafe(no_mangle)]
pub extern "C" fn sandline_limit_penalties(
    points: &[i32],
    out: &mut [i32],
    count: &mut [usize; 1],
) -> u8
    ensures { record { answer = result; out = (out.new, count.new) }
        ≡ answer_for_c (penalties_of points.now out.old) }
{
    hand(simplify::limit_penalties(points, out), count)
}

// The points that are left after both, staircases first.
#[unsafe(no_mangle)]
pub extern "C" fn sandline_simplify(
    points: &[i32],
    clockwise: bool,
    out: &mut [i32],
    count: &mut [usize; 1],
) -> u8
    ensures { record { answer = result; out = (out.new, count.new) }
        ≡ answer_for_c (simplify_of points.now clockwise out.old) }
{
    hand(simplify::simplify(points, clockwise, out), count)
}
