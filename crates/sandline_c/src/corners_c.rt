// Corners: where an outline turns.
ghost use Rattle.std.specs.Prelude.{◌≡◌};
ghost use Rattle.corners.specs.Calls.{find_corners_of};
ghost use Rattle.sandline_c.specs.Handed.{answer_for_c};
ghost use Rattle.sandline_c.specs.Read.{pair_from};

use crate::handing::hand;
use corners::Pair;

// A flag for each point, 1 for a corner.
#[unsafe(no_mangle)]
pub extern "C" fn sandline_find_corners(
    points: &[i32],
    c: i32,
    s: i32,
    closed: bool,
    flags: &mut [u8],
    count: &mut [usize; 1],
) -> u8
    ensures { record { answer = result; out = (flags.new, count.new) }
        ≡ answer_for_c (find_corners_of points.now (pair_from c s) closed flags.old) }
{
    hand(
        corners::find_corners(points, Pair { c, s }, closed, flags),
        count,
    )
}
