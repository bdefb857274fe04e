// For whoever measures: the signed area of three points, where two lines cross, midpoints and lengths.
//
// The calls refuse a coordinate out of range. `cross`, `middle` and `length`, on which other crates build,
// take any.
#![tactic(auto)]

mod area;
mod crossing;
mod lengths;
mod ratios;

pub use area::{cross, signed_area};
pub use crossing::find_intersection;
pub use lengths::{Vector, find_mid_point, length, middle};
pub use ratios::Intersection;
