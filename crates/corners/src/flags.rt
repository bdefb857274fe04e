// The flags of a list.
ghost use Rattle.std.specs.Prelude.{◌-◌, ◌≤◌, ◌<◌, not, ◌&&◌, ◌||◌, ◌≡◌, length};
ghost use Rattle.std.proofs.lemmas.List.Edits.{sets};
ghost use Rattle.laws.specs.Lists.{over};
ghost use Rattle.corners.specs.Corners.{corners_of};
ghost use Rattle.corners.specs.Neighbours.{is_end_at};
ghost use Rattle.corners.specs.Calls.{fair, find_corners_of};
ghost use Rattle.corners.specs.inside.Places.{same_flags};

use crate::Pair;
use crate::outline::Outline;
use crate::turns::Angle;
use point::Refusal;

// Puts a flag for each point at the start of `flags`, and answers how many those are. Of a closed list
// the last point, which repeats the first, has none.
pub fn find_corners(
    points: &[i32],
    pair: Pair,
    closed: bool,
    flags: &mut [u8],
) -> Result<usize, Refusal>
    ensures { record { answer = result; out = flags.new }
        ≡ find_corners_of points.now pair closed flags.old }
{
    point::judge_points(points)?;
    let n = points.len() / 2;
    if n == 0 {
        return Err(Refusal::TooFew);
    }
    let fine = fair(pair);
    if !fine {
        return Err(Refusal::BadSettings);
    }
    let m = point::seen(n, closed);
    if flags.len() < m {
        return Err(Refusal::NoRoom);
    }
    let outline = Outline { points, closed, m };
    outline.write(Angle { pair }, flags);
    Ok(m)
}

// Whether a pair is in range.
fn fair(pair: Pair) -> bool
    ensures { result ≡ fair pair }
{
    -1000 <= pair.c && pair.c <= 1000 && 1 <= pair.s && pair.s <= 1000
}

impl<'a> Outline<'a> {
    // Writes the flags, run by run of equal points: a run turns as one point does. `p` is the run's, which goes from
    // `i` on, and `from` the nearest before it that differs.
    fn write(&self, angle: Angle, flags: &mut [u8])
        requires { self.now.m ≤ length flags.old }
        ensures { flags.new ≡ over (corners_of self.now.points.now angle.pair self.now.closed) flags.old }
    {
        let mut p = point::point_at(self.points, 0);
        let mut from = self.before_first(p);
        let mut i = 0;
        for k in 0..self.m {
            let next = k + 1;
            let to = self.behind_run(i, next, p);
            // the run ends: there are no more points, or the next differs
            if next == self.m || p != to {
                self.fill(i, next, angle.turns(from, p, to), flags);
                from = p;
                p = to;
                i = next;
            }
        }
    }

    // Writes the flags from `i` up to `k`, not included, of points that turned or did not. The first is written by
    // itself: most runs are of one point, and the compiler makes a loop over bytes a call of memset.
    fn fill(&self, i: usize, k: usize, turned: bool, flags: &mut [u8])
        requires { (i < k) × (k ≤ self.now.m) × (self.now.m ≤ length flags.old) }
        ensures { flags.new ≡ sets flags.old i (same_flags self.now.closed self.now.m turned i (k - i)) }
    {
        flags[i] = u8::from(self.is_corner(i, turned));
        for j in i + 1..k {
            flags[j] = u8::from(self.is_corner(j, turned));
        }
    }

    // Whether the point at a position is a corner: an end of an open list, or where it turned.
    fn is_corner(&self, i: usize, turned: bool) -> bool
        requires { i < self.now.m }
        ensures { result ≡ ((not self.now.closed && is_end_at self.now.m i) || turned) }
    {
        (!self.closed && (i == 0 || i + 1 == self.m)) || turned
    }
}
