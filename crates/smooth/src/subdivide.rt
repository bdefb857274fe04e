// The round: each point of a list, and what enters behind it.
ghost use Rattle.std.specs.Prelude.{◌+◌, ◌*◌, ◌/◌, ◌≤◌, ◌<◌, false, ◌&&◌, ◌≡◌, ltb, length, set};
ghost use Rattle.point.specs.Points.{count, seen};
ghost use Rattle.smooth.specs.Places.{place_at};
ghost use Rattle.smooth.specs.Round.{round_of, closing};
ghost use Rattle.smooth.specs.Calls.{rounded, subdivided_of};
ghost use Rattle.smooth.specs.inside.Parts.{room_for, Turned};

use crate::Subdivided;
use crate::outline::Outline;
use crate::refusals::judge;
use crate::scheme::Settings;
use point::{PointF64, Refusal};

// Puts a list with what enters it at the start of `out`, and a flag for each of its points at the start
// of `flags`; a closed list's last point, which repeats the first, has none.
#[tactic(auto, using(crate::proofs::Refused::fine_call))]
pub fn subdivide_keep_corners(
    points: &[f64],
    corners: &[u8],
    settings: Settings,
    closed: bool,
    out: &mut [f64],
    flags: &mut [u8],
) -> Result<Subdivided, Refusal>
    ensures { record { answer = result; out = (out.new, flags.new) }
        ≡ subdivided_of points.now corners.now settings closed out.old flags.old }
{
    judge(points, corners, settings, closed, out.len(), flags.len())?;
    let outline = Outline {
        points,
        corners,
        settings,
        closed,
    };
    Ok(outline.round(out, flags))
}

// What a turn has done: how many points there are then, and whether the point that entered, if one did,
// leaves both its segments short.
#[derive(Clone, Copy)]
struct Step {
    k: usize,
    settled: bool,
}

impl<'a> Outline<'a> {
    // Makes the round where nothing is refused: each point that has a flag, and what enters behind it; a closed
    // list ends with its first point again.
    fn round(&self, out: &mut [f64], flags: &mut [u8]) -> Subdivided
        requires { (length self.now.corners.now ≡ seen (count self.now.points.now) self.now.closed)
            × ((self.now.closed && ltb (count self.now.points.now) 2) ≡ false)
            × (room_for self.now.closed (length self.now.corners.now) ≤ length out.old / 2)
            × (room_for self.now.closed (length self.now.corners.now) ≤ length flags.old) }
        ensures { record { answer = Ok result; out = (out.new, flags.new) }
            ≡ rounded (round_of self.now.points.now self.now.corners.now self.now.settings self.now.closed)
            (closing self.now.points.now self.now.closed) out.old flags.old }
    {
        let mut finished = true;
        let mut k = 0;
        for i in 0..self.corners.len() {
            let t = self.turn(i, k, out, flags);
            k = t.k;
            finished &= t.settled;
        }
        if self.closed {
            write(self.place_at(0), k, out);
            k += 1;
        }
        Subdivided {
            points: k,
            finished,
        }
    }

    // Puts the point at `i` down at position `k`, and behind it what enters there.
    fn turn(&self, i: usize, k: usize, out: &mut [f64], flags: &mut [u8]) -> Step
        requires { (i < length self.now.corners.now) × (k ≤ i * 2)
            × (room_for self.now.closed (length self.now.corners.now) ≤ length out.old / 2)
            × (room_for self.now.closed (length self.now.corners.now) ≤ length flags.old) }
        ensures { Turned self.now.points.now self.now.corners.now self.now.settings self.now.closed
            (length self.now.corners.now) i k out.old flags.old result out.new flags.new }
    {
        write(self.place_at(i), k, out);
        flags[k] = self.corners[i];
        match self.enter_behind(i) {
            None => Step {
                k: k + 1,
                settled: true,
            },
            Some(new) => {
                write(new.point, k + 1, out);
                flags[k + 1] = 0;
                Step {
                    k: k + 2,
                    settled: new.settled,
                }
            }
        }
    }
}

// Writes a point at a position.
fn write(p: PointF64, k: usize, out: &mut [f64])
    requires { k < length out.old / 2 }
    ensures { out.new ≡ set (set out.old (k * 2) p.x) (k * 2 + 1) p.y }
{
    out[k * 2] = p.x;
    out[k * 2 + 1] = p.y;
}
