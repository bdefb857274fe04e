// Kinds 02, 03 and 04: a list of points, by how many there are and each x and y.
ghost use Rattle.std.specs.Prelude.{◌≡◌, ◌≤◌};
ghost use Rattle.requests.specs.Frame.{simplify_in, reduce_in, numbers_in};
ghost use Rattle.requests.specs.Asked.{asked_of};
ghost use Rattle.requests.specs.inside.Parts.{points_at};

use crate::Asked;
use crate::two_bytes::{decode, word};
use crate::walking::direction;

// Kind 02: direction, points.
#[tactic(auto, unfolding(crate::specs::Asked::asked_of, crate::specs::Frame::simplify_in))]
pub(crate) fn simplify_in(frame: &[u8], to: &mut [i32]) -> Option<Asked>
    ensures { record { answer = result; out = to.new } ≡ asked_of (simplify_in frame.now) to.old }
{
    let clockwise = direction(frame)?;
    let values = points_at(frame, 2, to)?;
    Some(Asked::Simplify { clockwise, values })
}

// Kind 03: tolerance in sixteenths, points.
#[tactic(auto, unfolding(crate::specs::Asked::asked_of, crate::specs::Frame::reduce_in))]
pub(crate) fn reduce_in(frame: &[u8], to: &mut [i32]) -> Option<Asked>
    ensures { record { answer = result; out = to.new } ≡ asked_of (reduce_in frame.now) to.old }
{
    let values = points_at(frame, 3, to)?;
    let tolerance = word(frame, 1);
    Some(Asked::Reduce { tolerance, values })
}

// Kind 04: points.
#[tactic(auto, unfolding(crate::specs::Asked::asked_of, crate::specs::Frame::numbers_in))]
pub(crate) fn numbers_in(frame: &[u8], to: &mut [i32]) -> Option<Asked>
    ensures { record { answer = result; out = to.new } ≡ asked_of (numbers_in frame.now) to.old }
{
    let values = points_at(frame, 1, to)?;
    Some(Asked::Numbers { values })
}

// Puts the points of a frame, which stand behind their count at place `k`, at the start of `to`, and
// answers how many values they are. Where the frame is not as long as the count asks for, or the points
// do not fit, it writes nothing.
#[tactic(auto, using(crate::proofs::Values::length_values))]
fn points_at(frame: &[u8], k: usize, to: &mut [i32]) -> Option<usize>
    requires { k ≤ 3 }
    ensures { record { answer = result; out = to.new } ≡ points_at frame.now k to.old }
{
    if frame.len() < k + 2 {
        return None;
    }
    let count = usize::from(word(frame, k));
    if frame.len() != k + 2 + count * 4 {
        return None;
    }
    if to.len() < count * 2 {
        return None;
    }
    Some(decode(&frame[k + 2..], to))
}
