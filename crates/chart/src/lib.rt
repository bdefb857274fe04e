// Charts, for whoever draws an outline or reads a survey: single pixels, the four around a lattice point,
// the area, and where a walk may begin.
//
// A chart is 1 to 512 pixels wide and high. Its pixels are lent beside it as bytes: rows from the
// top, each padded to whole bytes, the leftmost pixel the highest bit. Padding changes no answer, nor
// do bytes behind the last row (proved in proofs/Padding).
//
// Each call is total and writes nothing.
#![tactic(auto)]

mod begin;
mod counting;
mod lattice;
mod pixels;

pub use begin::first_start;
pub use counting::area;
pub use lattice::around;
pub use pixels::{all_bytes, bad_chart, bad_sides, pixel, row_bytes};

// The size of a bitmap, in pixels. Taken whole everywhere: it will grow.
#[derive(Clone, Copy, PartialEq, Eq)]
pub struct Chart {
    pub width: usize,
    pub height: usize,
}
