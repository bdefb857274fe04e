// How much of a chart is set: the bits of each row's bytes, the last byte's padding masked off.
ghost use Rattle.std.specs.Prelude.{◌≤◌, ◌<◌, ◌-◌, ◌/◌, ◌^◌, ◌≡◌};
ghost use Rattle.laws.specs.inside.Bits.{set_bits};
ghost use Rattle.chart.specs.Area.{area_of, row_area};
ghost use Rattle.chart.specs.inside.Rows.{Good};

use crate::Chart;
use crate::pixels::{bad_chart, row_bytes};
use point::Refusal;

// How many pixels are set.
#[tactic(auto, using(crate::proofs::Rows::in_area), unfolding(crate::specs::Area::area_of))]
pub fn area(chart: Chart, pixels: &[u8]) -> Result<usize, Refusal>
    ensures { result ≡ area_of chart pixels.now }
{
    if bad_chart(chart, pixels) {
        return Err(Refusal::BadSize);
    }
    let mut set = 0;
    for y in 0..chart.height {
        set += row_area(chart, pixels, y);
    }
    Ok(set)
}

// How many pixels of row `y` are set.
#[tactic(auto, using(crate::proofs::Rows::counting))]
fn row_area(chart: Chart, pixels: &[u8], y: usize) -> usize
    requires { Good chart pixels.now × (y < chart.height) }
    ensures { result ≡ row_area chart pixels.now chart.width y }
{
    let from = y * row_bytes(chart.width);
    let whole = chart.width / 8;
    let mut set = 0;
    for byte in &pixels[from..from + whole] {
        set += ones(*byte);
    }
    let rest = chart.width % 8;
    if rest == 0 {
        return set;
    }
    set + first_ones(pixels[from + whole], rest)
}

// How many pixels of a byte are set.
#[tactic(auto, using(crate::proofs::OneByte::all_ones))]
fn ones(byte: u8) -> usize
    ensures { result ≡ set_bits 8 byte }
{
    u8::count_ones(byte) as usize
}

// How many of a byte's first pixels are set: the others are masked off.
#[tactic(auto, using(crate::proofs::OneByte::masked))]
fn first_ones(byte: u8, pixels: usize) -> usize
    requires { (1 ≤ pixels) × (pixels ≤ 8) }
    ensures { result ≡ set_bits pixels (byte / 2 ^ (8 - pixels)) }
{
    u8::count_ones(byte & 255 << (8 - pixels)) as usize
}
