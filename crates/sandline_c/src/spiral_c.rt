// Spirals: a square of pixels, one by one from its centre outwards.
//
// A spiral stands in the caller's own struct.
ghost use Rattle.std.specs.Prelude.{◌≡◌};
ghost use Rattle.spiral.specs.Spiral.{fresh_spiral, advanced};
ghost use Rattle.sandline_c.specs.Handed.{spiral_for_c, advance_for_c};

use spiral::SpiralWalker;

// The spiral of a square of `size` by `size`, before its first step.
#[unsafe(no_mangle)]
pub extern "C" fn sandline_spiral(size: usize, fresh: &mut SpiralWalker) -> u8
    ensures { record { answer = result; out = fresh.new } ≡ spiral_for_c (fresh_spiral size) fresh.old }
{
    match spiral::spiral(size) {
        Ok(s) => {
            *fresh = s;
            0
        }
        Err(refusal) => refusal.number(),
    }
}

// One step of a spiral: the point that it stood on, x and y, and a count of 1, or 0 where it has ended.
#[unsafe(no_mangle)]
pub extern "C" fn sandline_spiral_advance(
    s: &mut SpiralWalker,
    place: &mut [i32; 2],
    count: &mut [usize; 1],
) -> u8
    ensures { record { answer = result; out = (s.new, place.new, count.new) }
        ≡ advance_for_c (advanced s.old) place.old }
{
    match spiral::spiral_advance(s) {
        Ok(Some(p)) => {
            *place = [p.x, p.y];
            *count = [1];
            0
        }
        Ok(None) => {
            *count = [0];
            0
        }
        Err(refusal) => {
            *count = [0];
            refusal.number()
        }
    }
}
