// The numbers: a point's is the least distance among its own split and all splits of the spans
// around it, so that it is kept at exactly the tolerances below it.
ghost use Rattle.std.specs.Prelude.{◌≡◌};
ghost use Rattle.laws.specs.Least.{least};
ghost use Rattle.split.specs.Buffers.{laid_numbers};
ghost use Rattle.split.specs.inside.Passes.{numbering};

use crate::passes::{Pass, split_all};

// The numbers inside a span, by the least distance of the splits around it. Where all points of a span lie on the
// segment between its ends every number inside is 0, and no distance is worked out again.
#[derive(Clone, Copy)]
pub(crate) struct Numbering {
    pub(crate) around: f64,
}

impl Pass for Numbering {
    type Cell = f64;

    ghost rules = { numbering };

    fn cell(self) -> f64 {
        self.around
    }

    fn splits(self, distance: f64) -> bool {
        distance != 0.0
    }

    fn within(self, distance: f64) -> Numbering {
        Numbering {
            around: least(self.around, distance),
        }
    }

    // The splits around a span made the numbers of its ends, so the least of them is the lesser of the two, and need
    // not wait with the span.
    fn between(self, first: f64, last: f64) -> Numbering {
        Numbering {
            around: least(first, last),
        }
    }

    fn fill(part: &mut [f64]) {
        part.fill(0.0);
    }
}

// Puts the number of each point at the start of `out`. Where there is no point, or no place for
// each number, nothing is changed.
pub fn number(points: &[i32], out: &mut [f64])
    ensures { out.new ≡ laid_numbers points.now out.old }
{
    split_all(
        points,
        Numbering {
            around: f64::INFINITY,
        },
        out,
    );
}

// The lesser of two, the first of equals. `min` says something else of a NaN, and leaves open which zero it gives.
#[tactic(auto, unfolding(laws::specs::Least::least))]
fn least(a: f64, b: f64) -> f64
    ensures { result ≡ least a b }
{
    if b < a {
        return b;
    }
    a
}
