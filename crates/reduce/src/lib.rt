// For whoever draws an outline at a zoom: fewer of its points. `simplify_radial_dist` keeps a point that
// lies far enough from the last one kept, `simplify_douglas_peucker` those that the splits at a tolerance
// mark, and `reduce` is the one after the other. `numbers` gives each point one number, once, and `zoom` hands
// out the points whose number is above a tolerance: those that Douglas-Peucker keeps there.
//
// Lists of points are x, y, x, y, in lent slices; counts are points. Refusals are judged first, and
// then nothing can fail. Where a list is split, the parts that wait stand in a list of fixed size, so that the
// stack does not grow (`split::mark_waiting`, `split::number_waiting`).
// `simplify_douglas_peucker_counted` and `numbers_counted` also answer how many distances were computed.
#![tactic(auto)]

mod both_passes;
mod douglas_peucker;
mod keep;
mod numbering;
mod radial;
mod zooming;

pub use both_passes::reduce;
pub use douglas_peucker::{simplify_douglas_peucker, simplify_douglas_peucker_counted};
pub use numbering::{numbers, numbers_counted};
pub use radial::simplify_radial_dist;
pub use zooming::zoom;

// What a call hands out whose work is counted: how many points it put into the lent buffer (of the numbers, how many
// of these), and how many squared distances were computed for that.
#[derive(Clone, Copy, PartialEq, Eq)]
pub struct Counted {
    pub points: usize,
    pub distances: usize,
}
