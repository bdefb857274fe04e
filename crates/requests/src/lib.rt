// What a frame asks for, read off its bytes: for `frames`, which makes the call and answers it.
//
// Nothing fails: what is no frame asks for nothing.
#![tactic(auto)]

mod frame;
mod listed;
mod two_bytes;
mod walking;

use chart::Chart;
pub use frame::request;
use point::PointI32;

// The most bytes of a frame.
pub const MOST: usize = 16384;

// What a frame asks for. Its points are put in a buffer that the caller lends, x and y of each; `values`
// says how many numbers they are.
#[derive(Clone, Copy)]
pub enum Asked {
    // The chart's rows stand in the frame, from the place `rows` on.
    Walk {
        clockwise: bool,
        chart: Chart,
        start: PointI32,
        rows: usize,
    },
    Simplify {
        clockwise: bool,
        values: usize,
    },
    // The tolerance is in sixteenths.
    Reduce {
        tolerance: u16,
        values: usize,
    },
    Numbers {
        values: usize,
    },
}
