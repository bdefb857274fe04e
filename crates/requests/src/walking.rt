// Kind 01: direction, width, height, start, rows.
ghost use Rattle.std.specs.Prelude.{◌≡◌, [], ◌+◌, ◌*◌, ◌≤◌, eqb, length};
ghost use Rattle.chart.specs.Pixels.{row_bytes};
ghost use Rattle.requests.specs.Frame.{word_at, rows_from, chart_in, start_in, walk_in};
ghost use Rattle.requests.specs.Asked.{asked_of};
ghost use Rattle.requests.specs.inside.Parts.{direction_of};

use crate::Asked;
use crate::two_bytes::{signed_word, word};
use chart::Chart;
use point::PointI32;

// How many bytes stand before the rows.
const ROWS: usize = 10;

// Reads a frame of kind 01. It has no points, so that no buffer is needed.
#[tactic(auto, unfolding(crate::specs::Asked::asked_of, crate::specs::Frame::walk_in))]
pub(crate) fn walk_in(frame: &[u8]) -> Option<Asked>
    ensures { record { answer = result; out = [] } ≡ asked_of (walk_in frame.now) [] }
{
    let clockwise = direction(frame)?;
    if frame.len() < ROWS {
        return None;
    }
    let chart = chart_in(frame);
    if frame.len() - ROWS != chart::row_bytes(chart.width) * chart.height {
        return None;
    }
    Some(Asked::Walk {
        clockwise,
        chart,
        start: start_in(frame),
        rows: ROWS,
    })
}

// Whether the direction of a frame, its second byte, is clockwise.
pub(crate) fn direction(frame: &[u8]) -> Option<bool>
    ensures { result ≡ direction_of frame.now }
{
    match frame {
        [_, 0, ..] => Some(false),
        [_, 1, ..] => Some(true),
        _ => None,
    }
}

fn chart_in(frame: &[u8]) -> Chart
    requires { rows_from ≤ length frame.now }
    ensures { result ≡ chart_in frame.now }
{
    Chart {
        width: usize::from(word(frame, 2)),
        height: usize::from(word(frame, 4)),
    }
}

fn start_in(frame: &[u8]) -> PointI32
    requires { rows_from ≤ length frame.now }
    ensures { result ≡ start_in frame.now }
{
    PointI32 {
        x: signed_word(frame, 6),
        y: signed_word(frame, 8),
    }
}
