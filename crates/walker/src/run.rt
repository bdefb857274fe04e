// One run of a walk: along the outline in one direction, as far as it goes.
ghost use Rattle.std.specs.Prelude.{◌≤◌, false, ◌≡◌};
ghost use Rattle.std.proofs.Math.Option.{some};
ghost use Rattle.point.specs.Points.{same_point};
ghost use Rattle.chart.specs.Pixels.{bad_chart};
ghost use Rattle.walker.specs.inside.Course.{OnEdge, ran_on, point, place_of};

use crate::exits::{across, downward, exit_in, exits_after};
use chart::Chart;
use point::PointI32;

// Where a walk stands, the exit that it takes from there, and how many steps it has made.
#[derive(Clone, Copy)]
pub(crate) struct Place {
    pub x: i32,
    pub y: i32,
    pub way: u8,
    pub steps: u32,
}

// Where a walk begins that takes the exit `way`.
pub(crate) fn place_of(start: PointI32, way: u8) -> Place
    ensures { result ≡ place_of start way }
{
    Place {
        x: start.x,
        y: start.y,
        way,
        steps: 0,
    }
}

// The run from a place: it goes on until the exit taken would change direction.
#[tactic(auto, using(crate::proofs::run::Running::running))]
pub(crate) fn run(chart: Chart, pixels: &[u8], from: Place, clockwise: bool) -> Place
    requires { (bad_chart chart pixels.now ≡ false) × OnEdge chart pixels.now from × (from.steps ≤ 1000000) }
    ensures { ran_on chart pixels.now clockwise 600 from ≡ some result }
{
    let way = from.way;
    let exits = exits_after(way, clockwise);
    let dx = across(way);
    let dy = downward(way);
    let mut x = from.x;
    let mut y = from.y;
    let mut steps = from.steps;
    let mut next = way;
    while next == way {
        x += dx;
        y += dy;
        steps += 1;
        next = exit_in(exits, chart::around(chart, pixels, x, y));
    }
    Place {
        x,
        y,
        way: next,
        steps,
    }
}

// Whether a walk that stands at a place is back on its start.
pub(crate) fn is_on(start: PointI32, place: Place) -> bool
    ensures { result ≡ same_point (point place) start }
{
    let here = PointI32 {
        x: place.x,
        y: place.y,
    };
    here == start
}
