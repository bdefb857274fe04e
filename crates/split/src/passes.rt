// What marks and numbers have in common, and the walk that calls itself on the two parts of a span. They differ in what
// a place holds, in when a span is split, in what is put where it is, and in what the rest is filled with: each is a
// `Pass`.
ghost use Rattle.std.specs.Prelude.{◌+◌, ◌<◌, ◌≤◌, ◌≡◌, length, replicate};
ghost use Rattle.std.proofs.lemmas.List.Edits.{sets};
ghost use Rattle.point.specs.Points.{count};
ghost use Rattle.split.specs.Buffers.{laid};
ghost use Rattle.split.specs.Tree.{span_tree};
ghost use Rattle.split.specs.inside.Passes.{Rules, Lawful, whole};

use crate::farthest::farthest;

// What is known of the splits around a span, and what follows of it for the span. The laws of `rules` stand in the
// walks' `requires`, and not here: an impl could prove them by `specs` alone, and they rest on `proofs`.
pub(crate) trait Pass: Copy {
    // What a place of the buffer holds.
    type Cell: Copy;

    ghost rules: { Rules Self Self.Cell };

    // What the ends have of a span that this is around.
    fn cell(self) -> Self::Cell
        ensures { result ≡ rules.cell self };

    // Whether a span with this greatest distance is split.
    fn splits(self, distance: f64) -> bool
        ensures { result ≡ rules.splits self distance };

    // What is around the two parts.
    fn within(self, distance: f64) -> Self
        ensures { result ≡ rules.within self distance };

    // What is around a span, by what its ends have.
    fn between(self, first: Self::Cell, last: Self::Cell) -> Self
        ensures { result ≡ rules.between self first last };

    // Fills what is not split.
    fn fill(part: &mut [Self::Cell])
        ensures { part.new ≡ replicate (length part.old) rules.rest };
}

// Both ends of a list, and between them what a pass comes to, at the start of `out`. Where there is no point, or no
// place for each, nothing is changed.
pub(crate) fn split_all<P: Pass>(points: &[i32], pass: P, out: &mut [P::Cell])
    requires { Lawful P.rules pass }
    ensures { out.new ≡ laid points.now (whole P.rules pass points.now) out.old }
{
    let n = points.len() / 2;
    if n == 0 {
        return;
    }
    if out.len() < n {
        return;
    }
    out[0] = pass.cell();
    out[n - 1] = pass.cell();
    split_span(points, 0, n - 1, pass, out);
}

// The interior of a span, by the calls on its two parts. What falls is its length.
fn split_span<P: Pass>(points: &[i32], first: usize, last: usize, pass: P, out: &mut [P::Cell])
    requires { (first ≤ last) × (last < count points.now) × (last < length out.old) × Lawful P.rules pass }
    ensures { out.new ≡ sets out.old (first + 1) (P.rules.values pass (span_tree points.now first last)) }
{
    if last <= first + 1 {
        return;
    }
    let far = farthest(points, first, last);
    let index = far.index;
    if pass.splits(far.distance) {
        let inside = pass.within(far.distance);
        split_span(points, first, index, inside, out);
        out[index] = inside.cell();
        split_span(points, index, last, inside, out);
        return;
    }
    P::fill(&mut out[first + 1..last]);
}
