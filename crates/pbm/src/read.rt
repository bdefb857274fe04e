// A picture read into a chart.
ghost use Rattle.std.specs.Prelude.{◌*◌, ◌≤◌, true, false, ◌≡◌, length, drop};
ghost use Rattle.laws.specs.Lists.{over};
ghost use Rattle.chart.specs.Pixels.{all_bytes, bad_sides};
ghost use Rattle.pbm.specs.Bytes.{chart_bytes};
ghost use Rattle.pbm.specs.Read.{read_behind, read_of};
ghost use Rattle.pbm.specs.inside.Places.{place_of, header_at, image_of, behind_image, has_image, set_of};

use crate::Picture;
use crate::header::{Header, raster, read_header};
use crate::plain::{digits_end, pack_rows};
use crate::raw::{all_bytes, copy_rows};
use chart::Chart;
use point::Refusal;

// Reads the picture at the start of `file` into `pixels`. All of it is judged before anything is written.
pub fn read_pbm(file: &[u8], pixels: &mut [u8]) -> Result<Picture, Refusal>
    ensures { record { answer = result; out = pixels.new } ≡ read_of file.now pixels.old }
{
    let head = read_header(file).ok_or(Refusal::BadPicture)?;
    read_behind(file, head, pixels)
}

// Reads on behind a header: its sizes are judged first.
fn read_behind(file: &[u8], head: Header, pixels: &mut [u8]) -> Result<Picture, Refusal>
    ensures { record { answer = result; out = pixels.new } ≡ read_behind file.now (header_at file.now head) pixels.old }
{
    let chart = head.chart;
    if chart::bad_sides(chart) {
        return Err(Refusal::BadSize);
    }
    let from = raster(file, head.end).ok_or(Refusal::BadPicture)?;
    let end = image_end(file, from, head.plain, chart).ok_or(Refusal::BadPicture)?;
    if pixels.len() < all_bytes(chart) {
        return Err(Refusal::NoRoom);
    }
    lay(file, from, head.plain, chart, pixels);
    Ok(Picture { chart, bytes: end })
}

// The place behind the image; none, if it is not whole.
fn image_end(file: &[u8], from: usize, plain: bool, chart: Chart) -> Option<usize>
    requires { (bad_sides chart ≡ false) × (from ≤ length file.now) }
    ensures { result ≡ place_of file.now (behind_image (image_of plain chart (drop from file.now))) }
{
    if plain {
        return digits_end(file, from, chart.width * chart.height);
    }
    let bytes = all_bytes(chart);
    if file.len() - from < bytes {
        return None;
    }
    Some(from + bytes)
}

// Lays an image that is whole over the start of `pixels`.
fn lay(file: &[u8], from: usize, plain: bool, chart: Chart, pixels: &mut [u8])
    requires { (bad_sides chart ≡ false) × (all_bytes chart ≤ length pixels.old)
        × (from ≤ length file.now) × (has_image (image_of plain chart (drop from file.now)) ≡ true) }
    ensures { pixels.new ≡ over (chart_bytes chart (set_of (image_of plain chart (drop from file.now)))) pixels.old }
{
    if plain {
        pack_rows(file, from, chart, pixels);
        return;
    }
    let bytes = all_bytes(chart);
    copy_rows(chart, &file[from..], &mut pixels[..bytes]);
}
