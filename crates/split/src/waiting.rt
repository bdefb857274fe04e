// The splits with no call inside a call (document 02, 8/13): of the two parts of a span that is split, the one
// with fewer points inside is at hand next, and the other waits in a list. So no more than 11 ever wait for 4,096
// points, and the stack does not grow with the depth of the tree. What is left in the buffer is what the
// recursion leaves; and it is counted how many distances were computed.
ghost use Rattle.std.specs.Prelude.{◌+◌, ◌-◌, ◌<◌, ◌≤◌, ◌≡◌, length, get_or};
ghost use Rattle.std.proofs.lemmas.List.Edits.{sets};
ghost use Rattle.point.specs.Points.{count};
ghost use Rattle.split.specs.Tree.{span_tree};
ghost use Rattle.split.specs.Visits.{visits, counted_marks, counted_numbers};
ghost use Rattle.split.specs.inside.Parts.{parts_of};
ghost use Rattle.split.specs.inside.Passes.{Lawful, whole, counted_over};

use crate::farthest::farthest;
use crate::marks::Marking;
use crate::numbers::Numbering;
use crate::passes::Pass;

// The spans that wait: where each begins and ends, and how many there are. Two arrays and a count, by
// value, are the form that docs/DECISIONS.md names.
#[derive(Clone, Copy)]
struct Waiting {
    first: [usize; 12],
    last: [usize; 12],
    count: usize,
}

// Puts a mark for each point at the start of `marks`, as `mark` does, and answers how many distances were
// computed. Where there is no mark for each point, or there are over 4,096 points, nothing is changed.
pub fn mark_waiting(points: &[i32], tolerance: f64, marks: &mut [u8]) -> usize
    ensures { record { answer = result; out = marks.new } ≡ counted_marks points.now tolerance marks.old }
{
    walk_all(points, Marking { tolerance }, marks)
}

// Puts the number of each point at the start of `out`, as `number` does, and answers how many distances were
// computed. Where there is no place for each number, or there are over 4,096 points, nothing is changed.
pub fn number_waiting(points: &[i32], out: &mut [f64]) -> usize
    ensures { record { answer = result; out = out.new } ≡ counted_numbers points.now out.old }
{
    walk_all(
        points,
        Numbering {
            around: f64::INFINITY,
        },
        out,
    )
}

// Both ends of a list, and between them what a pass comes to, at the start of `out`, and how many distances were
// computed. Where there is no place for each point, or there are over 4,096 points, nothing is changed.
fn walk_all<P: Pass>(points: &[i32], pass: P, out: &mut [P::Cell]) -> usize
    requires { Lawful P.rules pass }
    ensures { record { answer = result; out = out.new }
        ≡ counted_over (P.rules.splits pass) points.now (whole P.rules pass points.now) out.old }
{
    let n = points.len() / 2;
    if n == 0 {
        return 0;
    }
    if 4096 < n {
        return 0;
    }
    if out.len() < n {
        return 0;
    }
    out[0] = pass.cell();
    out[n - 1] = pass.cell();
    walk_spans(points, n - 1, pass, out)
}

// What lies inside the span from 0 to `end`, whose ends are in place, and how many distances were computed.
fn walk_spans<P: Pass>(points: &[i32], end: usize, pass: P, out: &mut [P::Cell]) -> usize
    requires { (end < 4096) × (end < count points.now) × (end < length out.old) × Lawful P.rules pass
        × (get_or out.old 0 (P.rules.cell pass) ≡ P.rules.cell pass)
        × (get_or out.old end (P.rules.cell pass) ≡ P.rules.cell pass) }
    ensures { (out.new ≡ sets out.old (0 + 1) (P.rules.values pass (span_tree points.now 0 end)))
        × (result ≡ visits (P.rules.splits pass) (span_tree points.now 0 end)) }
{
    let mut waiting = Waiting {
        first: [0; 12],
        last: [0; 12],
        count: 0,
    };
    let mut first = 0;
    let mut last = end;
    let mut distances = 0;
    loop {
        let k = waiting.count;
        if last <= first + 1 {
            if k == 0 {
                return distances;
            }
            let top = k - 1;
            first = waiting.first[top];
            last = waiting.last[top];
            waiting.count = top;
        } else {
            let far = farthest(points, first, last);
            let index = far.index;
            distances += interior(first, last);
            if pass.splits(far.distance) {
                let around = pass.between(out[first], out[last]);
                out[index] = around.within(far.distance).cell();
                waiting.count = one_more(k);
                let parts = parts_of(first, index, last);
                waiting.first[k] = parts.from;
                waiting.last[k] = parts.to;
                first = parts.first;
                last = parts.last;
            } else {
                P::fill(&mut out[first + 1..last]);
                last = first;
            }
        }
    }
}

// How many points lie inside a span that has any.
fn interior(first: usize, last: usize) -> usize
    requires { first + 1 < last }
    ensures { result ≡ last - first - 1 }
{
    last - first - 1
}

// One more span waits. There are never more than 11: whoever puts one behind the others shows that.
fn one_more(waiting: usize) -> usize
    requires { waiting < 11 }
    ensures { (result ≡ waiting + 1) × (result ≤ 11) }
{
    waiting + 1
}

// The two parts of a span: the one that is at hand next, from `first` to `last`, and the one that waits.
#[derive(Clone, Copy)]
struct Parts {
    first: usize,
    last: usize,
    from: usize,
    to: usize,
}

// At hand next is the part with fewer points inside, the first of equals.
#[tactic(auto, unfolding(crate::specs::inside::Parts::parts_of))]
fn parts_of(first: usize, index: usize, last: usize) -> Parts
    requires { (first < index) × (index < last) }
    ensures { result ≡ parts_of first index last }
{
    if index - first <= last - index {
        return Parts {
            first,
            last: index,
            from: index,
            to: last,
        };
    }
    Parts {
        first: index,
        last,
        from: first,
        to: index,
    }
}
