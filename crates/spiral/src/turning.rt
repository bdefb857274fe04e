// The spiral: a square, cell by cell, from its centre outwards.
ghost use Rattle.std.specs.Prelude.{◌≡◌};
ghost use Rattle.spiral.specs.Spiral.{fresh_spiral, spiral_turn, advanced, between, placed, paced, sound};

use crate::places::onward;
use crate::{SpiralWalker, Step};
use point::{PointI32, Refusal};

// The spiral of a square of `size` by `size`, before its first step.
pub fn spiral(size: usize) -> Result<SpiralWalker, Refusal>
    ensures { result ≡ fresh_spiral size }
{
    if 512 < size {
        return Err(Refusal::BadSize);
    }
    let middle = (size / 2) as i32 - 1;
    Ok(SpiralWalker {
        x: middle,
        y: middle,
        dir: 0,
        gx: 1,
        gy: 0,
        sq: 1,
        cc: 0,
        area: size * size,
        step: 0,
    })
}

// One step: the point that the spiral stands on, with the spiral one place on, or none at its end.
pub fn spiral_step(s: SpiralWalker) -> Result<Option<Step>, Refusal>
    ensures { result ≡ spiral_turn s }
{
    if !sound(s) {
        return Err(Refusal::BadSize);
    }
    if s.area <= s.step {
        return Ok(None);
    }
    if s.area == 1 {
        return Ok(Some(Step {
            point: PointI32 { x: 0, y: 0 },
            next: SpiralWalker {
                step: s.step + 1,
                ..s
            },
        }));
    }
    Ok(Some(Step {
        point: PointI32 { x: s.x, y: s.y },
        next: onward(s),
    }))
}

// One step of the caller's own spiral. Where there is no point the spiral stays as it came.
pub fn spiral_advance(s: &mut SpiralWalker) -> Result<Option<PointI32>, Refusal>
    ensures { record { answer = result; out = s.new } ≡ advanced s.old }
{
    let Some(step) = spiral_step(*s)? else {
        return Ok(None);
    };
    *s = step.next;
    Ok(Some(step.point))
}

// Whether every field of the state is in range.
fn sound(s: SpiralWalker) -> bool
    ensures { result ≡ sound s }
{
    placed(s.x, s.y, s.dir, s.gx, s.gy) & paced(s.sq, s.cc, s.area, s.step)
}

// Whether where the spiral stands and how it goes are in range.
fn placed(x: i32, y: i32, dir: i32, gx: i32, gy: i32) -> bool
    ensures { result ≡ placed x y dir gx gy }
{
    between(-512, x, 512)
        & between(-512, y, 512)
        & between(0, dir, 3)
        & between(-1, gx, 1)
        & between(-1, gy, 1)
}

// Whether how far it has come is in range.
fn paced(sq: i32, cc: i32, area: usize, step: usize) -> bool
    ensures { result ≡ paced sq cc area step }
{
    between(1, sq, 1024) & (0 <= cc) & (cc < sq) & (area <= 262144) & (step <= area)
}

// From `low` to `high`, both counted in.
fn between(low: i32, value: i32, high: i32) -> bool
    ensures { result ≡ between low value high }
{
    low <= value && value <= high
}
