// What enters behind a point of an outline that is smoothed: a point of the segment that leaves it, or
// nothing.
ghost use Rattle.std.specs.Prelude.{◌<◌, ◌≡◌, length};
ghost use Rattle.smooth.specs.Segments.{entering, entering_behind};

use crate::outline::Outline;
use crate::scheme::{Entering, placed, skipped};

impl<'a> Outline<'a> {
    // What enters behind the point at `i`. No segment leaves the last point of an open list.
    pub(crate) fn enter_behind(&self, i: usize) -> Option<Entering>
        requires { i < length self.now.corners.now }
        ensures { result ≡ entering_behind self.now.points.now self.now.corners.now self.now.settings self.now.closed
            (length self.now.corners.now) i }
    {
        if i + 1 < self.corners.len() {
            return self.enter(i, i + 1);
        }
        if self.closed {
            return self.enter(i, 0);
        }
        None
    }

    // What enters the segment between the points at `i` and `j`: nothing where it is left as it is, or where each
    // end is its own neighbour, a corner or the end of an open list.
    #[tactic(auto, unfolding(crate::specs::Segments::entering))]
    fn enter(&self, i: usize, j: usize) -> Option<Entering>
        requires { (i < length self.now.corners.now) × (j < length self.now.corners.now) }
        ensures { result ≡ entering self.now.points.now self.now.corners.now self.now.settings self.now.closed
            (length self.now.corners.now) i j }
    {
        let p = self.place_at(i);
        let q = self.place_at(j);
        let prev = self.prev_of(i);
        let next = self.next_of(j);
        if skipped(
            p,
            q,
            self.place_at(prev),
            self.place_at(next),
            self.settings.length,
        ) {
            return None;
        }
        let before = self.kept(i, prev);
        let behind = self.kept(j, next);
        if before == i && behind == j {
            return None;
        }
        Some(placed(
            self.settings,
            p,
            q,
            self.place_at(before),
            self.place_at(behind),
        ))
    }
}
