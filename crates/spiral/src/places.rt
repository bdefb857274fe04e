// A spiral from one place to the next.
ghost use Rattle.std.specs.Prelude.{◌≡◌, true, pos};
ghost use Rattle.spiral.specs.Spiral.{between, sound, turned, going_x, going_y, longer, ahead, corner, onward};

use crate::SpiralWalker;

// One place on; at the end of a side, in the next direction.
pub(crate) fn onward(s: SpiralWalker) -> SpiralWalker
    requires { sound s ≡ true }
    ensures { result ≡ onward s }
{
    let next = ahead(s);
    if next.cc < next.sq {
        return next;
    }
    corner(next, turned(s.dir))
}

// One place on in the direction that it goes.
fn ahead(s: SpiralWalker) -> SpiralWalker
    requires { sound s ≡ true }
    ensures { result ≡ ahead s }
{
    SpiralWalker {
        x: s.x + s.gx,
        y: s.y + s.gy,
        cc: s.cc + 1,
        step: s.step + 1,
        ..s
    }
}

// At the end of a side: the first place of a side in the direction `dir`.
fn corner(s: SpiralWalker, dir: i32) -> SpiralWalker
    requires { between (pos 1) s.sq (pos 1024) ≡ true }
    ensures { result ≡ corner dir s }
{
    SpiralWalker {
        dir,
        gx: going_x(dir),
        gy: going_y(dir),
        sq: longer(dir, s.sq),
        cc: 0,
        ..s
    }
}

// The direction after `dir`: 0 right, 1 down, 2 left, 3 up.
fn turned(dir: i32) -> i32
    ensures { result ≡ turned dir }
{
    if 3 <= dir { 0 } else { dir + 1 }
}

// How x goes in a direction: as in the definition, by the size of `dir`. For each coordinate there is a function, as
// there is a definition: one for both would hand out a point that is taken apart at once.
fn going_x(dir: i32) -> i32
    ensures { result ≡ going_x dir }
{
    match dir.unsigned_abs() {
        0 => 1,
        2 => -1,
        _ => 0,
    }
}

// How y goes in a direction, likewise.
fn going_y(dir: i32) -> i32
    ensures { result ≡ going_y dir }
{
    match dir.unsigned_abs() {
        1 => 1,
        3 => -1,
        _ => 0,
    }
}

// How long a side is in a direction, after one of `sq`: every second one is one longer.
fn longer(dir: i32, sq: i32) -> i32
    requires { between (pos 1) sq (pos 1024) ≡ true }
    ensures { result ≡ longer dir sq }
{
    if dir % 2 == 0 { sq + 1 } else { sq }
}
