// A chart written as a raw picture.
ghost use Rattle.std.specs.Prelude.{◌+◌, ◌≤◌, false, [], ◌∷◌, ◌++◌, ◌≡◌, length};
ghost use Rattle.laws.specs.Lists.{over};
ghost use Rattle.chart.specs.Pixels.{all_bytes, bad_sides};
ghost use Rattle.texts.specs.Put.{held, put_by};
ghost use Rattle.texts.specs.Text.{natural_text};
ghost use Rattle.pbm.specs.Write.{head_text, written_of};

use crate::raw::{all_bytes, copy_rows};
use chart::Chart;
use point::Refusal;
use texts::Pen;

// Writes a chart to `out`: `P4`, newline, width, space, height, newline, and the rows with their padding
// cleared. Counted are bytes.
pub fn write_pbm(chart: Chart, pixels: &[u8], out: &mut [u8]) -> Result<usize, Refusal>
    ensures { record { answer = result; out = out.new } ≡ written_of chart pixels.now out.old }
{
    if chart::bad_chart(chart, pixels) {
        return Err(Refusal::BadSize);
    }
    let bytes = file_bytes(chart);
    if out.len() < bytes {
        return Err(Refusal::NoRoom);
    }
    let end = put_head(chart, out);
    copy_rows(chart, pixels, &mut out[end..bytes]);
    Ok(bytes)
}

// How many bytes a picture takes. Its header is put into scratch memory, which 11 bytes are enough for.
fn file_bytes(chart: Chart) -> usize
    requires { bad_sides chart ≡ false }
    ensures { result ≡ length (head_text chart) + all_bytes chart }
{
    let mut scratch = [0u8; 11];
    put_head(chart, &mut scratch) + all_bytes(chart)
}

// Puts the header, and answers how long it is.
fn put_head(chart: Chart, out: &mut [u8]) -> usize
    requires { length (head_text chart) ≤ length out.old }
    ensures { (result ≡ length (head_text chart)) × (out.new ≡ over (head_text chart) out.old) }
{
    let mut pen = Pen { out, at: 0 };
    pen.put_bytes(b"P4\n");
    put_size(chart.width, b' ', &mut pen);
    put_size(chart.height, b'\n', &mut pen);
    pen.at
}

// Puts a size and the byte behind it.
fn put_size(size: usize, behind: u8, pen: &mut Pen)
    requires { pen.old.at + length (natural_text size ++ (behind ∷ [])) ≤ length pen.old.out.now }
    ensures put { held pen.new ≡ put_by pen.old (natural_text size ++ (behind ∷ [])) }
    ensures same { pen.new.out.ghost_name ≡ pen.old.out.ghost_name }
{
    pen.put_natural(size as u64);
    pen.put_byte(behind);
}
