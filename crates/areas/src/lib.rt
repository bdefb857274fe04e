// For the harbour desk: how much sand a zoom takes. `areas_at` gives, at a squared tolerance, twice the signed area
// of a list of points, of those that are kept, and of the gaps between these; `areas_by` does so for any choice of kept
// points, and `twice_area` gives the area of a list alone. The whole is always the kept and the gaps together.
//
// Areas are twice what they are on the chart, so that they are whole numbers, and positive where the points go
// clockwise, y down. A list counts as closed, from its last point to its first.
#![tactic(auto)]

mod lists;
mod sums;
mod totals;

pub use lists::{areas_at, areas_by, twice_area};
pub use totals::together;

// Twice the area of a list, of its kept points, and of all gaps between them.
#[derive(Clone, Copy, PartialEq, Eq)]
pub struct Areas {
    pub whole: i64,
    pub kept: i64,
    pub gaps: i64,
}
