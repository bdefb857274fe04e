// One frame in, one answer out, for programs and callers in C: a line of hexadecimal asks for a call of the
// library, and its answer is a line of hexadecimal.
//
// Nothing fails: what is no frame is answered so, and where an answer does not fit, nothing is written. What a
// frame asks for is read in `requests`.
//
// The arrays that a call needs lie on the stack, which does not grow with the depth of the splits.
#![tactic(auto)]

mod calls;
mod line;
mod replies;

pub use calls::{put_numbered, put_reduced, put_simplified, put_walk};
pub use line::answer;
pub use replies::{put_numbers, put_points};

// The most values of points, x and y of each, that a frame or an answer holds.
pub const VALUES: usize = 8190;
