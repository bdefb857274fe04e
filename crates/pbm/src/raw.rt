// Rows of pixels, copied with their padding cleared: as a raw picture has them, and as a chart has them.
ghost use Rattle.std.specs.Prelude.{◌*◌, ◌/◌, ◌^◌, ◌≤◌, false, ◌≡◌, length};
ghost use Rattle.chart.specs.Pixels.{cell, all_bytes, bad_sides};
ghost use Rattle.pbm.specs.Bytes.{chart_bytes};

use chart::Chart;
use texts::Pen;

// How many bytes a chart in range takes.
pub(crate) fn all_bytes(chart: Chart) -> usize
    requires { bad_sides chart ≡ false }
    ensures { result ≡ all_bytes chart }
{
    chart::all_bytes(chart)
}

// Copies a chart's rows from the start of `pixels` over a part that is as long as they are: all bytes as they are,
// and then the padding is cleared. (A call of its own, so that the loop over bytes keeps its places in registers.)
#[inline(never)]
pub(crate) fn copy_rows(chart: Chart, pixels: &[u8], part: &mut [u8])
    requires { (bad_sides chart ≡ false) × (all_bytes chart ≤ length pixels.now)
        × (length part.old ≡ all_bytes chart) }
    ensures { part.new ≡ chart_bytes chart (cell chart pixels.now) }
{
    let bytes = part.len();
    let mut pen = Pen {
        out: &mut *part,
        at: 0,
    };
    pen.put_bytes(&pixels[..bytes]);
    clear_padding(chart, part);
}

// Clears the padding of a chart's rows. Each row's last byte has it.
fn clear_padding(chart: Chart, part: &mut [u8])
    requires { (bad_sides chart ≡ false) × (length part.old ≡ all_bytes chart) }
    ensures { part.new ≡ chart_bytes chart (cell chart part.old) }
{
    let row = chart::row_bytes(chart.width);
    let padding = row * 8 - chart.width;
    let mut next = 0;
    for _ in 0..chart.height {
        next += row;
        part[next - 1] = cleared(part[next - 1], padding);
    }
}

// A byte without its last `n` pixels.
fn cleared(byte: u8, n: usize) -> u8
    requires { n ≤ 7 }
    ensures { result ≡ byte / 2 ^ n * 2 ^ n }
{
    byte & (255 << n)
}
