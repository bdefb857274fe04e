// A frame, by its kind.
ghost use Rattle.std.specs.Prelude.{◌≡◌};
ghost use Rattle.requests.specs.Frame.{request_in};
ghost use Rattle.requests.specs.Asked.{asked_of};

use crate::listed::{numbers_in, reduce_in, simplify_in};
use crate::walking::walk_in;
use crate::{Asked, MOST};

// The kinds, by a frame's first byte.
const WALK: u8 = 1;

const SIMPLIFY: u8 = 2;

const REDUCE: u8 = 3;

const NUMBERS: u8 = 4;

// Reads what a frame asks for, and puts its points at the start of `to`. Where they do not fit, or it
// is no frame, it writes nothing: 8,190 places are enough for every frame.
#[tactic(auto, unfolding(crate::specs::Asked::asked_of, crate::specs::Frame::request_in))]
pub fn request(frame: &[u8], to: &mut [i32]) -> Option<Asked>
    ensures { record { answer = result; out = to.new } ≡ asked_of (request_in frame.now) to.old }
{
    if MOST < frame.len() {
        return None;
    }
    match frame {
        [WALK, ..] => walk_in(frame),
        [SIMPLIFY, ..] => simplify_in(frame, to),
        [REDUCE, ..] => reduce_in(frame, to),
        [NUMBERS, ..] => numbers_in(frame, to),
        _ => None,
    }
}
