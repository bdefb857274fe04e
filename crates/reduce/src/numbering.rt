// The numbers of a list, over the splits of the crate `split`.
ghost use Rattle.std.specs.Prelude.{◌≡◌};
ghost use Rattle.reduce.specs.Numbers.{numbered_of, counted_numbered_of};

use crate::Counted;
use point::Refusal;

// Puts the number of each point at the start of `out`: the point is kept at exactly the squared
// tolerances below it.
pub fn numbers(points: &[i32], out: &mut [f64]) -> Result<usize, Refusal>
    ensures { record { answer = result; out = out.new } ≡ numbered_of points.now out.old }
{
    Ok(numbers_counted(points, out)?.points)
}

// The same, and answers how many distances were computed too.
pub fn numbers_counted(points: &[i32], out: &mut [f64]) -> Result<Counted, Refusal>
    ensures { record { answer = result; out = out.new } ≡ counted_numbered_of points.now out.old }
{
    let n = points.len() / 2;
    point::judge_points(points)?;
    if n == 0 {
        return Err(Refusal::TooFew);
    }
    if out.len() < point::places_for(n) {
        return Err(Refusal::NoRoom);
    }
    let distances = split::number_waiting(points, out);
    Ok(Counted {
        points: n,
        distances,
    })
}
