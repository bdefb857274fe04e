// Which way a walk goes on.
//
// Directions are 0 up, 1 right, 2 down, 3 left. What lies around a lattice point, as
// `chart::around` numbers it, says which of them are exits: those whose two side pixels differ.
//
// A direction stays a number, and no enum: it is what two bits of a word of exits hold.
ghost use Rattle.std.specs.Prelude.{◌*◌, ◌/◌, ◌%◌, ◌^◌, ◌<◌, ◌≡◌};
ghost use Rattle.chart.specs.Pixels.{around_of};
ghost use Rattle.walker.specs.inside.Course.{across, downward, ExitsAfter, FirstExits, first_exit, found_exit};

use chart::Chart;
use point::PointI32;

// The exit taken from the start, if there is one.
#[tactic(auto, using(crate::proofs::run::Running::around_small))]
pub(crate) fn way_in(chart: Chart, pixels: &[u8], start: PointI32, clockwise: bool) -> Option<u8>
    ensures { result ≡ found_exit (first_exit (around_of chart pixels.now start.x start.y) clockwise) }
{
    first_exit(chart::around(chart, pixels, start.x, start.y), clockwise)
}

// The exit taken from the start, by the number of what lies around it.
fn first_exit(around: u8, clockwise: bool) -> Option<u8>
    requires { around < 16 }
    ensures { result ≡ found_exit (first_exit around clockwise) }
{
    let way = ((first_exits(clockwise) >> (4 * around)) % 16) as u8;
    if way < 4 { Some(way) } else { None }
}

// The exits taken from the start, four bits for each of the sixteen numbers that `chart::around` gives.
//
// Each word was made from `first_exit` of specs/inside/Course: its hexadecimal digit m, the last of them
// digit 0, is the exit for number m, or 4 where there is none. The proof computes all sixteen. By hand:
// in number 1 the pixel below on the right alone is set, so that right and down are exits. Clockwise
// tries 0, 1, 2, 3 and takes right: digit 1 of the first word is 1. Otherwise 3, 2, 1, 0 are tried
// and down is taken: digit 1 of the second is 2.
fn first_exits(clockwise: bool) -> u64
    ensures { FirstExits result clockwise }
{
    if clockwise {
        return 0x4121_0000_0000_1214;
    }
    0x4233_1233_3321_3324
}

// The exits taken after a move in direction `way`, two bits for each of the sixteen numbers: the
// first in order that does not lead back. The move was along an exit, and exits are even in number,
// so that there is always another; where there could be none the bits are 0.
//
// Each word was made from `onward` of specs/inside/Course: its bits 2m and 2m + 1 are the exit for number
// m, so that a hexadecimal digit has two exits, the one of the lower number in its lower half. The
// proof computes all sixteen. By hand: in number 3 the two pixels below are set, so that right and left
// are exits. After a move up neither leads back, and clockwise tries right first: 1. Numbers 2 and
// 3 share the last digit but one of 0x1d00_0074, which is 7, binary 01 11: number 3 has the 01.
pub(crate) fn exits_after(way: u8, clockwise: bool) -> u32
    requires { way < 4 }
    ensures { ExitsAfter result clockwise way }
{
    match (clockwise, way) {
        (true, 0) => 0x1d00_0074,
        (true, 1) => 0x1900_0064,
        (true, 2) => 0x1967_d964,
        (true, _) => 0x2b00_00e8,
        (false, 0) => 0x1f4f_f1f4,
        (false, 1) => 0x2968_2968,
        (false, 2) => 0x2f6f_f9f8,
        (false, _) => 0x2f2f_f8f8,
    }
}

// The exit that such bits have for what lies around.
pub(crate) fn exit_in(exits: u32, around: u8) -> u8
    requires { around < 16 }
    ensures { result ≡ exits / 2 ^ (2 * around) % 4 }
{
    ((exits >> (2 * around)) % 4) as u8
}

// How far a step in a direction goes to the right. For each coordinate there is a function, as there is a definition:
// one for both would hand out a point that is taken apart at once.
#[tactic(auto, unfolding(crate::specs::inside::Course::across))]
pub(crate) fn across(way: u8) -> i32
    ensures { result ≡ across way }
{
    match way {
        1 => 1,
        3 => -1,
        _ => 0,
    }
}

// How far a step in a direction goes down.
#[tactic(auto, unfolding(crate::specs::inside::Course::downward))]
pub(crate) fn downward(way: u8) -> i32
    ensures { result ≡ downward way }
{
    match way {
        2 => 1,
        0 => -1,
        _ => 0,
    }
}
