// The list of a call, whose points are looked at one run of equal ones after the other.
ghost use Rattle.std.specs.Prelude.{false, ◌≡◌};
ghost use Rattle.point.specs.Limits.{bad_points};
ghost use Rattle.point.specs.Points.{count, seen};

// The list, judged, and how many of its points have a flag.
#[derive(Clone, Copy)]
pub(crate) struct Outline<'a> {
    pub points: &'a [i32],
    pub closed: bool,
    pub m: usize,
    // No point is refused.
    ghost judged: { bad_points points.now ≡ false },
    // Of a closed list the last point, which repeats the first, has none.
    ghost flagged: { m ≡ seen (count points.now) closed },
}
