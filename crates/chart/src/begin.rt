// Where a walk of a chart may begin.
ghost use Rattle.std.specs.Prelude.{◌<◌, ◌≡◌, pos};
ghost use Rattle.chart.specs.Start.{first_start, first_in_row};
ghost use Rattle.chart.specs.inside.Rows.{Good, in_column, FirstBit};

use crate::Chart;
use crate::pixels::{bad_chart, row_bytes};
use point::{PointI32, Refusal};

// The top left corner of the first set pixel, row by row. It looks at bytes until one has a bit. A blank
// chart has no such place.
#[tactic(auto, using(crate::proofs::begin::Starts::in_rows), unfolding(crate::specs::Start::first_start))]
pub fn first_start(chart: Chart, pixels: &[u8]) -> Result<PointI32, Refusal>
    ensures { result ≡ first_start chart pixels.now }
{
    if bad_chart(chart, pixels) {
        return Err(Refusal::BadSize);
    }
    for y in 0..chart.height {
        if let Some(x) = first_in_row(chart, pixels, y) {
            return Ok(PointI32 {
                x: x as i32,
                y: y as i32,
            });
        }
    }
    Err(Refusal::NoWay)
}

// The column of a row's first set pixel.
#[tactic(auto, using(crate::proofs::begin::Starts::in_a_row), unfolding(crate::specs::Pixels::row_bytes))]
fn first_in_row(chart: Chart, pixels: &[u8], y: usize) -> Option<usize>
    requires { Good chart pixels.now × (y < chart.height) }
    ensures { in_column y result ≡ first_in_row chart pixels.now 0 y chart.width }
{
    let bytes = row_bytes(chart.width);
    let from = y * bytes;
    for i in 0..bytes {
        if let Some(first) = first_bit(pixels[from + i]) {
            let x = i * 8 + first;
            // Behind the last column is padding.
            return if x < chart.width { Some(x) } else { None };
        }
    }
    None
}

// The column of a byte's first set pixel.
#[tactic(auto, using(crate::proofs::OneByte::first_set, crate::proofs::OneByte::none_set))]
fn first_bit(byte: u8) -> Option<usize>
    ensures { FirstBit byte result }
{
    let first = u8::leading_zeros(byte) as usize;
    if first < 8 { Some(first) } else { None }
}
