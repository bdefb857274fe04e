// Whether a point stays between its neighbours.
ghost use Rattle.std.specs.Prelude.{◌≡◌};
ghost use Rattle.util.specs.Area.{signed_area};
ghost use Rattle.point.specs.inside.Near.{Near};
ghost use Rattle.simplify.specs.Staircase.{segment_length, outwards, stays};

use point::PointI32;

// Whether a point stays: beside a step of one pixel where the outline turns outwards, and else in any case. The two
// steps have a branch each: a processor foretells these better than one for both.
pub(crate) fn stays(before: PointI32, p: PointI32, after: PointI32, clockwise: bool) -> bool
    requires { Near before × Near p × Near after }
    ensures { result ≡ stays clockwise before p after }
{
    if segment_length(p, before) == 1 {
        return outwards(before, p, after, clockwise);
    }
    if segment_length(p, after) == 1 {
        return outwards(before, p, after, clockwise);
    }
    true
}

// Whether an outline turns outwards at a point: the way that it goes round.
fn outwards(before: PointI32, p: PointI32, after: PointI32, clockwise: bool) -> bool
    requires { Near before × Near p × Near after }
    ensures { result ≡ outwards clockwise (signed_area before p after) }
{
    let area = util::cross(
        p.x - before.x,
        p.y - before.y,
        after.x - before.x,
        after.y - before.y,
    );
    if clockwise { 0 < area } else { area < 0 }
}

// How far two points lie apart along the axes.
fn segment_length(p: PointI32, q: PointI32) -> u32
    requires { Near p × Near q }
    ensures { result ≡ segment_length p q }
{
    (p.x - q.x).unsigned_abs() + (p.y - q.y).unsigned_abs()
}
