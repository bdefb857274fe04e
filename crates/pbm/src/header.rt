// How a picture begins, plain or raw: the magic number, two sizes, and what parts them from the raster.
ghost use Rattle.std.specs.Prelude.{◌≡◌, drop};
ghost use Rattle.pbm.specs.Header.{sizes_in, header_in, raster_in};
ghost use Rattle.pbm.specs.inside.Places.{place_of, head_of};

use crate::blanks::past_line;
use crate::decimal::read_size;
use crate::letters::{hash, white};
use chart::Chart;

// A header: of which kind, the sizes, one out of range standing for all such, and the place behind it.
#[derive(Clone, Copy)]
pub(crate) struct Header {
    pub plain: bool,
    pub chart: Chart,
    pub end: usize,
}

// Reads the header up to its second size.
pub(crate) fn read_header(file: &[u8]) -> Option<Header>
    ensures { result ≡ head_of file.now (header_in file.now) }
{
    match file {
        [b'P', b'1', ..] => sizes(file, true),
        [b'P', b'4', ..] => sizes(file, false),
        _ => None,
    }
}

// Reads the two sizes behind the magic number.
fn sizes(file: &[u8], plain: bool) -> Option<Header>
    ensures { result ≡ head_of file.now (sizes_in plain (drop 2 file.now)) }
{
    let width = read_size(file, 2)?;
    let height = read_size(file, width.end)?;
    Some(Header {
        plain,
        chart: Chart {
            width: width.value,
            height: height.value,
        },
        end: height.end,
    })
}

// The place of the raster: behind one byte of white space, or one comment and the end of its line.
pub(crate) fn raster(file: &[u8], from: usize) -> Option<usize>
    ensures { result ≡ place_of file.now (raster_in (drop from file.now)) }
{
    let b = *file.get(from)?;
    if white(b) {
        return Some(from + 1);
    }
    if hash(b) {
        return Some(past_line(file, from + 1));
    }
    None
}
