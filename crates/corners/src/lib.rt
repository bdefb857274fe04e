// For a planner whose outline keeps its corners: which points are corners, in whole numbers. It is exact, unlike the
// Rust's find_corners, which compares angles. A peg that was entered twice is one turn, not a corner by itself: a
// point turns from the nearest before it that differs to the nearest behind it that does.
//
// Lists of points are x, y, x, y; flags are bytes, 1 for a corner and 0 for none.
#![tactic(auto)]

mod flags;
mod nearest;
mod outline;
mod turns;

pub use flags::find_corners;

// The angle from which on a turn is a corner: `c` and `s` are proportional to its cosine and sine, so
// that 0 and 1 stand for 90 degrees.
#[derive(Clone, Copy, PartialEq, Eq)]
pub struct Pair {
    pub c: i32,
    pub s: i32,
}
