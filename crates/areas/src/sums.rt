// Cross products, added up along a list of points. Callers have judged the list.
ghost use Rattle.std.specs.Prelude.{◌<◌, ◌≤◌, true, false, ◌≡◌, nat_abs, length};
ghost use Rattle.point.specs.Limits.{bad_points};
ghost use Rattle.point.specs.Points.{count, points as points_of};
ghost use Rattle.point.specs.inside.Near.{Near};
ghost use Rattle.areas.specs.Areas.{edge, twice_area, three_areas, ends_kept};
ghost use Rattle.areas.specs.inside.Added.{Small, Smallish, edge_added, chord_added, closing_added};

use crate::Areas;
use point::PointI32;

// Twice the area of a list.
pub(crate) fn area(points: &[i32]) -> i64
    requires { (bad_points points.now ≡ false) × (count points.now ≤ 4096) }
    ensures { result ≡ twice_area (points_of points.now) }
{
    let first = point::point_at(points, 0);
    let mut prev = first;
    let mut sum = 0i64;
    for k in 1..points.len() / 2 {
        let p = point::point_at(points, k);
        sum += edge(prev, p);
        prev = p;
    }
    sum + edge(prev, first)
}

// The three areas of a list by its marks, one for each point, of which both ends are kept.
pub(crate) fn add_up(points: &[i32], marks: &[u8]) -> Areas
    requires { (bad_points points.now ≡ false) × (0 < count points.now) × (count points.now ≤ 4096)
        × (length marks.now ≡ count points.now) × (ends_kept marks.now ≡ true) }
    ensures { result ≡ three_areas marks.now (points_of points.now) }
{
    let first = point::point_at(points, 0);
    let mut prev = first;
    let mut from = first;
    let mut sums = Areas {
        whole: 0,
        kept: 0,
        gaps: 0,
    };
    for k in 1..points.len() / 2 {
        let p = point::point_at(points, k);
        sums = along(sums, prev, p);
        prev = p;
        if marks[k] != 0 {
            sums = across(sums, from, p);
            from = p;
        }
    }
    closed(sums, prev, first)
}

// An edge of the list belongs to the whole, and to the gap that it lies in.
fn along(sums: Areas, prev: PointI32, p: PointI32) -> Areas
    requires { Small sums × Near prev × Near p }
    ensures { (result ≡ edge_added sums prev p) × Smallish result }
{
    let step = edge(prev, p);
    Areas {
        whole: sums.whole + step,
        kept: sums.kept,
        gaps: sums.gaps + step,
    }
}

// A chord is an edge of the kept points and, walked back, it closes a gap.
fn across(sums: Areas, from: PointI32, p: PointI32) -> Areas
    requires { Smallish sums × Near from × Near p }
    ensures { result ≡ chord_added sums from p }
{
    let chord = edge(from, p);
    Areas {
        whole: sums.whole,
        kept: sums.kept + chord,
        gaps: sums.gaps - chord,
    }
}

// The last point is kept: the whole and the kept are closed by the same edge, and no gap is open.
fn closed(sums: Areas, last: PointI32, first: PointI32) -> Areas
    requires { Small sums × Near last × Near first }
    ensures { result ≡ closing_added sums last first }
{
    let step = edge(last, first);
    Areas {
        whole: sums.whole + step,
        kept: sums.kept + step,
        gaps: sums.gaps,
    }
}

// What the edge from one point to another adds to twice an area.
fn edge(p: PointI32, q: PointI32) -> i64
    requires { Near p × Near q }
    ensures { (result ≡ edge p q) × (nat_abs result ≤ 536805378) }
{
    util::cross(p.x, p.y, q.x, q.y)
}
