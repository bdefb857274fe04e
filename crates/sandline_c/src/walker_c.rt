// Walks along the outline of what is set.
ghost use Rattle.std.specs.Prelude.{◌≡◌};
ghost use Rattle.walker.specs.Walk.{walked};
ghost use Rattle.sandline_c.specs.Handed.{answer_for_c};
ghost use Rattle.sandline_c.specs.Read.{chart_from, point_from};

use crate::handing::hand;
use chart::Chart;
use point::PointI32;

// The outline of what is set, walked from a start.
#[unsafe(no_mangle)]
pub extern "C" fn sandline_walk(
    width: usize,
    height: usize,
    pixels: &[u8],
    x: i32,
    y: i32,
    clockwise: bool,
    out: &mut [i32],
    count: &mut [usize; 1],
) -> u8
    ensures { record { answer = result; out = (out.new, count.new) }
        ≡ answer_for_c (walked (chart_from width height) pixels.now (point_from x y) clockwise out.old) }
{
    let start = PointI32 { x, y };
    hand(
        walker::walk(Chart { width, height }, pixels, start, clockwise, out),
        count,
    )
}
