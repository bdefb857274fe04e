// Charts: a pixel, the area, and where a walk may begin.
ghost use Rattle.std.specs.Prelude.{◌≡◌};
ghost use Rattle.chart.specs.Area.{area_of};
ghost use Rattle.chart.specs.Pixels.{pixel_at};
ghost use Rattle.chart.specs.Start.{first_start};
ghost use Rattle.sandline_c.specs.Handed.{start_for_c, area_for_c};
ghost use Rattle.sandline_c.specs.Read.{chart_from};

use crate::handing::hand;
use chart::Chart;

// Whether a pixel of a chart is set; none is outside of it.
#[unsafe(no_mangle)]
pub extern "C" fn sandline_pixel(width: usize, height: usize, pixels: &[u8], x: i32, y: i32) -> bool
    ensures { result ≡ pixel_at (chart_from width height) pixels.now x y }
{
    chart::pixel(Chart { width, height }, pixels, x, y)
}

// How many pixels of a chart are set.
#[unsafe(no_mangle)]
pub extern "C" fn sandline_area(
    width: usize,
    height: usize,
    pixels: &[u8],
    count: &mut [usize; 1],
) -> u8
    ensures { record { answer = result; out = count.new } ≡ area_for_c (area_of (chart_from width height) pixels.now) }
{
    hand(chart::area(Chart { width, height }, pixels), count)
}

// Where a walk of a chart may begin: x and y.
#[unsafe(no_mangle)]
pub extern "C" fn sandline_first_start(
    width: usize,
    height: usize,
    pixels: &[u8],
    start: &mut [i32; 2],
) -> u8
    ensures { record { answer = result; out = start.new }
        ≡ start_for_c (first_start (chart_from width height) pixels.now) start.old }
{
    match chart::first_start(Chart { width, height }, pixels) {
        Ok(p) => {
            *start = [p.x, p.y];
            0
        }
        Err(refusal) => refusal.number(),
    }
}
