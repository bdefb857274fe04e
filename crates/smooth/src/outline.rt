// An outline that is smoothed: the points at its positions, and which positions lie beside which.
ghost use Rattle.std.specs.Prelude.{◌<◌, ◌≤◌, ◌≡◌, length, if◌then◌else◌};
ghost use Rattle.point.specs.Points.{count};
ghost use Rattle.smooth.specs.Places.{place_at};
ghost use Rattle.smooth.specs.Segments.{has_flag, prev_of, next_of};

use crate::scheme::Settings;
use point::PointF64;

// The points, a flag for each that the round looks at, and what it goes by.
#[derive(Clone, Copy)]
pub(crate) struct Outline<'a> {
    pub points: &'a [f64],
    pub corners: &'a [u8],
    pub settings: Settings,
    pub closed: bool,
    // Each flag has a point.
    ghost flagged: { length corners.now ≤ count points.now },
}

impl<'a> Outline<'a> {
    // The point at a position.
    pub(crate) fn place_at(&self, k: usize) -> PointF64
        requires { k < length self.now.corners.now }
        ensures { result ≡ place_at self.now.points.now k }
    {
        PointF64 {
            x: self.points[k * 2],
            y: self.points[k * 2 + 1],
        }
    }

    // The neighbour that counts beyond the end `at` of a segment: a corner is its own.
    pub(crate) fn kept(&self, at: usize, neighbour: usize) -> usize
        requires { (at < length self.now.corners.now) × (neighbour < length self.now.corners.now) }
        ensures { (result ≡ (if has_flag self.now.corners.now at then at else neighbour))
            × (result < length self.now.corners.now) }
    {
        if self.corners[at] == 1 { at } else { neighbour }
    }

    // The position before a segment from `i`; the end of an open list is its own.
    pub(crate) fn prev_of(&self, i: usize) -> usize
        requires { i < length self.now.corners.now }
        ensures { (result ≡ prev_of self.now.closed (length self.now.corners.now) i)
            × (result < length self.now.corners.now) }
    {
        if i != 0 {
            return i - 1;
        }
        if self.closed {
            self.corners.len() - 1
        } else {
            i
        }
    }

    // The position behind a segment to `j`; the end of an open list is its own.
    pub(crate) fn next_of(&self, j: usize) -> usize
        requires { j < length self.now.corners.now }
        ensures { (result ≡ next_of self.now.closed (length self.now.corners.now) j)
            × (result < length self.now.corners.now) }
    {
        if j + 1 != self.corners.len() {
            return j + 1;
        }
        if self.closed { 0 } else { j }
    }
}
