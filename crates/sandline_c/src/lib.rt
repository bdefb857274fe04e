// The calls of the library for C, and for all that can call C. include/sandline.h says it to its users.
//
// Every call is thin: it hands its slices on to the proved call of the same name, and answers document 01's
// number, 0 for done. Counts and values come back through small lent arrays: after a refusal the count is 0,
// and all else that was lent holds what it held.
//
// The calls of a crate stand in the file of its name, as they stand under its heading in the header. What stack
// each call takes is said there too, and tools/stack prints it.
#![tactic(auto)]

mod chart_c;
mod corners_c;
mod frames_c;
mod handing;
mod pbm_c;
mod reduce_c;
mod simplify_c;
mod smooth_c;
mod spiral_c;
mod sqrt_c;
mod util_c;
mod walker_c;
