// For a planner who wants a smoother outline, one round of subdivision: between two points of an outline a third may enter, beside the middle of the two
// and away from the points around them, so that the outline bends more gently; corners stay.
//
// Lists of points are x, y, x, y, in lent slices; counts are points. Flags are bytes, 1 for a corner.
//
// A round of n points takes 6 (n - 1) square roots at most: of each segment its length, and where that is
// over the segment length those of the segments beside it; where a point enters, how far out it lies, and
// the length of one new segment or both. The Rust takes one more there, since it works out the distance
// twice.
#![tactic(auto)]

mod outline;
mod refusals;
mod scheme;
mod segment;
mod subdivide;

pub use corners::{Pair, find_corners};
pub use scheme::Settings;
pub use subdivide::subdivide_keep_corners;

// What a round hands out: how many points there are, and whether it is finished: where no point entered, or every
// one left both parts of its segment at most the segment length.
#[derive(Clone, Copy, PartialEq, Eq)]
pub struct Subdivided {
    pub points: usize,
    pub finished: bool,
}
