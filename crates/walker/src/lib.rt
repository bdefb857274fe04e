// Walks along the outline of what is set on a chart, for whoever draws it.
//
// A walk goes from point to point of the lattice between the pixels, and hands out its start and the end of
// each of its runs. It is followed to its end before anything is written.
#![tactic(auto)]

mod course;
mod exits;
mod run;

pub use course::walk;
