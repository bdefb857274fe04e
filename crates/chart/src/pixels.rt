// Single pixels, by shift and mask on the row's bytes.
ghost use Rattle.std.specs.Prelude.{◌≡◌, ◌<◌, pos};
ghost use Rattle.chart.specs.Pixels.{side, bad_sides, bad_chart, bytes_asked, row_bytes, has_pixel, pixel_at};

use crate::Chart;

// The widest and the highest that a chart may be.
const LONGEST: usize = 512;

// Whether a chart's size is out of range, or its pixels are too few.
#[tactic(auto, unfolding(crate::specs::Pixels::bad_chart))]
pub fn bad_chart(chart: Chart, pixels: &[u8]) -> bool
    ensures { result ≡ bad_chart chart pixels.now }
{
    bad_sides(chart) || pixels.len() < all_bytes(chart)
}

// Whether a chart's size is out of range.
pub fn bad_sides(chart: Chart) -> bool
    ensures { result ≡ bad_sides chart }
{
    !(side(chart.width) && side(chart.height))
}

// Whether a chart may be so wide, or so high.
#[tactic(auto, unfolding(crate::specs::Pixels::side))]
fn side(size: usize) -> bool
    ensures { result ≡ side size }
{
    1 <= size && size <= LONGEST
}

// How many bytes a chart asks for: none where its size is out of range, so that nobody lends it any. (No Option: who
// counts bytes has judged the size.)
#[tactic(auto, using(crate::proofs::Sizes::asked_fits))]
pub fn all_bytes(chart: Chart) -> usize
    ensures { result ≡ bytes_asked chart }
{
    if bad_sides(chart) {
        return 0;
    }
    row_bytes(chart.width) * chart.height
}

// How many bytes a row of so many pixels takes: as many as it fills, and one for what is left.
#[tactic(auto, unfolding(crate::specs::Pixels::row_bytes))]
pub fn row_bytes(width: usize) -> usize
    ensures { result ≡ row_bytes width }
{
    width / 8 + (width % 8 + 7) / 8
}

// The pixel in column `x` of row `y`; false outside the chart.
#[tactic(auto, using(crate::proofs::Outside::left_of, crate::proofs::Outside::above))]
pub fn pixel(chart: Chart, pixels: &[u8], x: i32, y: i32) -> bool
    ensures { result ≡ pixel_at chart pixels.now x y }
{
    if x < 0 || y < 0 {
        return false;
    }
    pixel_in(chart, pixels, x as usize, y as usize)
}

// The pixel in a column and a row that are counted from 0; false outside the chart and past the last byte.
#[tactic(auto, using(crate::proofs::BitPlaces::places), unfolding(crate::specs::Pixels::pixel_at))]
fn pixel_in(chart: Chart, pixels: &[u8], column: usize, row: usize) -> bool
    requires { row < 2147483648 }
    ensures { result ≡ pixel_at chart pixels.now (pos column) (pos row) }
{
    if !has_pixel(chart, column, row) {
        return false;
    }
    let at = row * row_bytes(chart.width) + column / 8;
    at < pixels.len() && pixels[at] >> (7 - column % 8) & 1 == 1
}

// Whether a chart that is not too wide has a pixel there.
#[tactic(auto, unfolding(crate::specs::Pixels::has_pixel))]
pub(crate) fn has_pixel(chart: Chart, column: usize, row: usize) -> bool
    ensures { result ≡ has_pixel chart column row }
{
    chart.width <= LONGEST && column < chart.width && row < chart.height
}
