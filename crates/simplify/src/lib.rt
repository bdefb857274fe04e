// For a planner with a walked outline, fewer points: `remove_staircase` takes out one-pixel staircases, as a walk
// along pixels leaves them, `limit_penalties` the points that it can do without at little cost, and `simplify` one
// after the other.
//
// Lists of points are x, y, x, y, in lent slices; counts are points. Refusals are judged first, and
// then nothing can fail.
#![tactic(auto)]

mod costs;
mod paths;
mod penalties;
mod staircase;
mod steps;
mod triangle;

pub use paths::simplify;
pub use penalties::limit_penalties;
pub use staircase::remove_staircase;
