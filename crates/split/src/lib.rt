// For `reduce`: the tree of splits of a list of points, walked twice. Cut at a tolerance it gives the marks of
// Douglas-Peucker, and whole it gives one number per point that decides at every tolerance. A span is split at
// its point that lies farthest from the segment between its ends.
//
// Lists of points are x, y, x, y. Nothing is judged here but the room: any coordinates and any
// tolerance have their answer.
//
// Each walk has two ways, which leave the same in the buffer. `mark` and `number` call themselves on the two parts
// of a span, so the stack grows with the depth of the tree: at most as many levels as there are points less one,
// 4,095 for 4,096 points. `mark_waiting` and `number_waiting` keep the parts that wait in a list of twelve, in a
// fixed stack, and answer how many distances they computed.
#![tactic(auto)]

mod distance;
mod farthest;
mod marks;
mod numbers;
mod passes;
mod waiting;

pub use marks::mark;
pub use numbers::number;
pub use waiting::{mark_waiting, number_waiting};
