// Pictures: charts out of Netpbm's PBM files, and into them.
ghost use Rattle.std.specs.Prelude.{◌≡◌};
ghost use Rattle.pbm.specs.Read.{read_of};
ghost use Rattle.pbm.specs.Write.{written_of};
ghost use Rattle.sandline_c.specs.Handed.{picture_for_c, answer_for_c};
ghost use Rattle.sandline_c.specs.Read.{chart_from};

use crate::handing::hand;
use chart::Chart;

// The chart of the picture at the start of a file, plain or raw: its pixels, its sizes, and how many bytes
// of the file the image took.
#[unsafe(no_mangle)]
pub extern "C" fn sandline_read_pbm(
    file: &[u8],
    pixels: &mut [u8],
    width: &mut [usize; 1],
    height: &mut [usize; 1],
    count: &mut [usize; 1],
) -> u8
    ensures { record { answer = result; out = (pixels.new, width.new, height.new, count.new) }
        ≡ picture_for_c (read_of file.now pixels.old) width.old height.old }
{
    match pbm::read_pbm(file, pixels) {
        Ok(picture) => {
            *width = [picture.chart.width];
            *height = [picture.chart.height];
            *count = [picture.bytes];
            0
        }
        Err(refusal) => {
            *count = [0];
            refusal.number()
        }
    }
}

// A chart as a raw picture; counted are bytes.
#[unsafe(no_mangle)]
pub extern "C" fn sandline_write_pbm(
    width: usize,
    height: usize,
    pixels: &[u8],
    out: &mut [u8],
    count: &mut [usize; 1],
) -> u8
    ensures { record { answer = result; out = (out.new, count.new) }
        ≡ answer_for_c (written_of (chart_from width height) pixels.now out.old) }
{
    hand(pbm::write_pbm(Chart { width, height }, pixels, out), count)
}
