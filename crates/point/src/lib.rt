// For every crate that is handed points: points, the limits that every call of the library keeps, why a call
// refuses, and lists of points read and written one point at a time.
//
// Each call is total and looks at nothing but what it is handed.
#![tactic(auto)]

mod flags;
mod limits;
mod list;
mod refusal;
mod vector;

pub use flags::bad_flags;
pub use limits::{
    Ranged, bad_points, bad_sq_tolerance, bad_tolerance, judge, judge_points, places_for, too_many,
    within,
};
pub use list::{point_at, put, seen};
pub use refusal::{Refusal, number};
pub use vector::same_point;

// A point of a chart or an outline, in pixels, y down.
#[derive(Clone, Copy, PartialEq, Eq)]
pub struct PointI32 {
    pub x: i32,
    pub y: i32,
}

// A point with fractions. (Two structs, as document 01 names them, and not one over a type.)
#[derive(Clone, Copy, PartialEq)]
pub struct PointF64 {
    pub x: f64,
    pub y: f64,
}
