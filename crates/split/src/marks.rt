// Douglas-Peucker: a span whose points all lie within the tolerance of the segment between its ends
// loses them; any other is split at the farthest.
ghost use Rattle.std.specs.Prelude.{◌≡◌};
ghost use Rattle.split.specs.Buffers.{laid_marks};
ghost use Rattle.split.specs.inside.Passes.{marking};

use crate::passes::{Pass, split_all};

// The marks at a squared tolerance: 1 for each kept point, and 0 for each dropped one.
#[derive(Clone, Copy)]
pub(crate) struct Marking {
    pub(crate) tolerance: f64,
}

impl Pass for Marking {
    type Cell = u8;

    ghost rules = { marking };

    fn cell(self) -> u8 {
        1
    }

    fn splits(self, distance: f64) -> bool {
        self.tolerance < distance
    }

    fn within(self, _distance: f64) -> Marking {
        self
    }

    fn between(self, _first: u8, _last: u8) -> Marking {
        self
    }

    fn fill(part: &mut [u8]) {
        part.fill(0);
    }
}

// Puts a mark for each point at the start of `marks`: 1 if it is kept at the squared tolerance, 0 if
// not. Where there is no point, or no mark for each, nothing is changed.
pub fn mark(points: &[i32], tolerance: f64, marks: &mut [u8])
    ensures { marks.new ≡ laid_marks points.now tolerance marks.old }
{
    split_all(points, Marking { tolerance }, marks);
}
