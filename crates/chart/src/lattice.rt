// The four pixels around a lattice point: by two bytes or four where all are in the chart, and one by
// one at its edge.
ghost use Rattle.std.specs.Prelude.{true, false, ◌≡◌, ◌+◌, ◌-◌, ◌*◌, ◌/◌, ◌≤◌, ◌<◌, pos, length};
ghost use Rattle.std.specs.Int.Signed.{lt_z};
ghost use Rattle.chart.specs.Pixels.{one, around_of};
ghost use Rattle.chart.specs.inside.Around.{bit_at, pair_of, surrounded};

use crate::Chart;
use crate::pixels::{has_pixel, pixel, row_bytes};

// The four pixels around the lattice point (`x`, `y`), the top left corner of the pixel there: of
// weight 8 and 4 the two above it, 2 and 1 the two below, the left one the heavier of each.
pub fn around(chart: Chart, pixels: &[u8], x: i32, y: i32) -> u8
    ensures { result ≡ around_of chart pixels.now x y }
{
    if x < 0 || y < 0 {
        return at_the_edge(chart, pixels, x, y);
    }
    let column = x as usize;
    let row = y as usize;
    if surrounded(chart, pixels, column, row) {
        return four(chart, pixels, column, row);
    }
    at_the_edge(chart, pixels, x, y)
}

// Whether all four are in the chart.
#[tactic(auto, using(crate::proofs::BitPlaces::places), unfolding(crate::specs::inside::Around::surrounded))]
fn surrounded(chart: Chart, pixels: &[u8], column: usize, row: usize) -> bool
    requires { row < 2147483648 }
    ensures { result ≡ surrounded chart pixels.now column row }
{
    if column < 1 || row < 1 || !has_pixel(chart, column, row) {
        return false;
    }
    let stride = row_bytes(chart.width) * 8;
    (row * stride + column) / 8 < pixels.len()
}

// The four where all are in the chart: one or two bytes of each row.
#[tactic(auto, using(crate::proofs::BitPlaces::pairs))]
fn four(chart: Chart, pixels: &[u8], column: usize, row: usize) -> u8
    requires { (row < 2147483648) × (surrounded chart pixels.now column row ≡ true) }
    ensures { result ≡ around_of chart pixels.now (pos column) (pos row) }
{
    let stride = row_bytes(chart.width) * 8;
    let bit = row * stride + column;
    4 * pair(pixels, bit - stride) + pair(pixels, bit)
}

// A bit of the bytes, counted from the first byte's highest, and the bit before it, of weight 2.
#[tactic(auto, using(crate::proofs::OneByte::within_a_byte, crate::proofs::OneByte::across_two))]
fn pair(pixels: &[u8], bit: usize) -> u8
    requires { (1 ≤ bit) × (bit / 8 < length pixels.now) }
    ensures { result ≡ 2 * one (bit_at pixels.now (bit - 1)) + one (bit_at pixels.now bit) }
{
    let at = bit / 8;
    let k = bit % 8;
    if k == 0 {
        let left = pixels[at - 1] & 1;
        let right = pixels[at] >> 7 & 1;
        return left * 2 + right;
    }
    pixels[at] >> (7 - k) & 3
}

// The four, each looked at by itself.
#[tactic(auto, using(crate::proofs::BitPlaces::edge))]
fn at_the_edge(chart: Chart, pixels: &[u8], x: i32, y: i32) -> u8
    ensures { result ≡ around_of chart pixels.now x y }
{
    if x < 0 || y < 0 {
        return 0;
    }
    4 * two(chart, pixels, x, y - 1) + two(chart, pixels, x, y)
}

// A pixel and the one on its left, of weight 2.
#[tactic(auto, using(crate::proofs::OneByte::as_number), unfolding(crate::specs::inside::Around::pair_of))]
fn two(chart: Chart, pixels: &[u8], x: i32, y: i32) -> u8
    requires { lt_z x (pos 0) ≡ false }
    ensures { result ≡ pair_of chart pixels.now x y }
{
    2 * u8::from(pixel(chart, pixels, x - 1, y)) + u8::from(pixel(chart, pixels, x, y))
}
