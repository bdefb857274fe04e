// A call made, and its answer put as a line by a pen; where it does not fit, nothing is written and the place
// stays. A refusal is an answer too.
ghost use Rattle.std.specs.Prelude.{◌≡◌};
ghost use Rattle.walker.specs.Walk.{walked};
ghost use Rattle.simplify.specs.Simplify.{simplify_of};
ghost use Rattle.reduce.specs.Numbers.{numbered_of};
ghost use Rattle.reduce.specs.Reduce.{reduce_of};
ghost use Rattle.texts.specs.Put.{held, put_by};
ghost use Rattle.frames.specs.Room.{room, marks, number_room};
ghost use Rattle.frames.specs.Calls.{walk_reply, simplify_reply, reduce_reply, numbers_reply};

use crate::{VALUES, replies};
use chart::Chart;
use point::{PointI32, number};
use texts::Pen;

// The most points of an answer, and the most numbers.
const POINTS: usize = 4095;

const NUMBERS: usize = 2047;

// Kind 01: walks, and puts the outline.
#[tactic(auto, using(crate::proofs::Room::counted_room, crate::proofs::Room::walk_counts))]
pub fn put_walk(chart: Chart, pixels: &[u8], start: PointI32, clockwise: bool, pen: &mut Pen)
    ensures put { held pen.new ≡ put_by pen.old (walk_reply (walked chart pixels.now start clockwise room)) }
    ensures same { pen.new.out.ghost_name ≡ pen.old.out.ghost_name }
{
    let mut values = [0i32; VALUES];
    let answer = walker::walk(chart, pixels, start, clockwise, &mut values);
    replies::put_counted(1, answer, &values, pen);
}

// Kind 02: simplifies, and puts the points that are kept.
#[tactic(auto, using(crate::proofs::Room::counted_room, crate::proofs::Room::simplify_counts))]
pub fn put_simplified(list: &[i32], clockwise: bool, pen: &mut Pen)
    ensures put { held pen.new ≡ put_by pen.old (simplify_reply (simplify_of list.now clockwise room)) }
    ensures same { pen.new.out.ghost_name ≡ pen.old.out.ghost_name }
{
    let mut kept = [0i32; VALUES];
    let answer = simplify::simplify(list, clockwise, &mut kept);
    replies::put_counted(2, answer, &kept, pen);
}

// Kind 03: reduces, and puts the points that are kept.
#[tactic(auto, using(crate::proofs::Room::counted_room, crate::proofs::Room::reduce_counts))]
pub fn put_reduced(list: &[i32], tolerance: f64, pen: &mut Pen)
    ensures put { held pen.new ≡ put_by pen.old (reduce_reply (reduce_of list.now tolerance room room marks)) }
    ensures same { pen.new.out.ghost_name ≡ pen.old.out.ghost_name }
{
    let mut kept = [0i32; VALUES];
    let mut scratch = [0i32; VALUES];
    let mut marks = [0u8; POINTS];
    let answer = reduce::reduce(list, tolerance, &mut kept, &mut scratch, &mut marks);
    replies::put_counted(3, answer, &kept, pen);
}

// Kind 04: numbers the points, and puts the numbers.
pub fn put_numbered(list: &[i32], pen: &mut Pen)
    ensures put { held pen.new ≡ put_by pen.old (numbers_reply (numbered_of list.now number_room)) }
    ensures same { pen.new.out.ghost_name ≡ pen.old.out.ghost_name }
{
    let mut numbers = [0.0f64; NUMBERS];
    let answer = reduce::numbers(list, &mut numbers);
    let count = answer.unwrap_or(0);
    replies::put_numbers(4, number(answer), &numbers[..count], pen);
}
