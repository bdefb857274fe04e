// What a caller in C is handed: a number, and the rest through what was lent.
ghost use Rattle.std.specs.Prelude.{[], ◌∷◌, ◌≡◌};
ghost use Rattle.point.specs.Refusals.{number_of, count_of};
ghost use Rattle.reduce.specs.Answers.{counted_count, distances_of};

use point::{Refusal, number};
use reduce::Counted;

// The number of an answer, its count put where it was asked for.
pub(crate) fn hand(answer: Result<usize, Refusal>, count: &mut [usize; 1]) -> u8
    ensures { (result ≡ number_of answer) × (count.new ≡ count_of answer ∷ []) }
{
    *count = [answer.unwrap_or(0)];
    number(answer)
}

// The number of an answer whose work is counted, its count and its distances put where they were asked for.
pub(crate) fn hand_counted(
    answer: Result<Counted, Refusal>,
    count: &mut [usize; 1],
    distances: &mut [usize; 1],
) -> u8
    ensures { (result ≡ number_of answer) × (count.new ≡ counted_count answer ∷ [])
        × (distances.new ≡ distances_of answer ∷ []) }
{
    let counted = answer.unwrap_or(Counted {
        points: 0,
        distances: 0,
    });
    *count = [counted.points];
    *distances = [counted.distances];
    number(answer)
}
