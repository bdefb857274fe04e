// Spirals, for whoever looks for the nearest cell first: a walk of a square, cell by cell, from its centre
// outwards.
//
// The state goes by value, and is answered anew with each point; `spiral_advance` moves it on in the
// caller's own struct.
#![tactic(auto)]

mod places;
mod turning;

use point::{PointI32, Refusal};
pub use turning::{spiral, spiral_advance, spiral_step};

// Where such a walk stands, and how it goes on: clockwise, y down. Its fields are those of a struct in C, and so
// `dir` is a number and no enum.
#[repr(C)]
#[derive(Clone, Copy)]
pub struct SpiralWalker {
    // The place that it stands on.
    pub x: i32,
    pub y: i32,
    // The direction: 0 right, 1 down, 2 left, 3 up.
    pub dir: i32,
    // What a step adds to x and to y in that direction.
    pub gx: i32,
    pub gy: i32,
    // How many steps this side has, and how many of them are done.
    pub sq: i32,
    pub cc: i32,
    // How many steps there are in all, and how many of them are done.
    pub area: usize,
    pub step: usize,
}

// A step of a spiral: the point that it stood on, and the spiral one place on.
#[derive(Clone, Copy)]
pub struct Step {
    pub point: PointI32,
    pub next: SpiralWalker,
}
