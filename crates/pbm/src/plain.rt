// The digits of a plain raster: judged first, then put into a chart.
ghost use Rattle.std.specs.Prelude.{◌+◌, ◌-◌, ◌*◌, ◌^◌, ◌≤◌, min, true, false, ◌||◌, ◌≡◌, eqb, length, get_or, drop};
ghost use Rattle.std.proofs.Math.Option.{some};
ghost use Rattle.laws.specs.Lists.{over};
ghost use Rattle.chart.specs.Pixels.{all_bytes, bad_sides};
ghost use Rattle.pbm.specs.Bytes.{packed, chart_bytes};
ghost use Rattle.pbm.specs.Raster.{digits_in};
ghost use Rattle.pbm.specs.inside.Places.{place_of, behind_digits, bits_of, whole};

use crate::letters::white;
use crate::raw::all_bytes;
use chart::Chart;

// Some pixels of one byte, and the place behind the last of them.
#[derive(Clone, Copy)]
struct Gathered {
    byte: u8,
    end: usize,
}

// The place behind `n` digits, with white space before each or not; none, if another byte stands before
// the last of them or the file ends.
pub(crate) fn digits_end(file: &[u8], from: usize, n: usize) -> Option<usize>
    requires { from ≤ length file.now }
    ensures { result ≡ place_of file.now (behind_digits (digits_in n (drop from file.now))) }
{
    let mut left = n;
    let mut i = from;
    // No `for`: digits are counted, and only some of the bytes are digits.
    while 0 < left {
        let b = *file.get(i)?;
        i += 1;
        if is_pixel(b) {
            left -= 1;
        } else if !white(b) {
            return None;
        }
    }
    Some(i)
}

// Puts the pixels of all rows into a chart's bytes; they are all there. `x` is the first column of the byte
// at hand.
pub(crate) fn pack_rows(file: &[u8], from: usize, chart: Chart, pixels: &mut [u8])
    requires { (bad_sides chart ≡ false) × (all_bytes chart ≤ length pixels.old)
        × (whole (digits_in (chart.width * chart.height) (drop from file.now)) ≡ true) }
    ensures { pixels.new ≡ over (chart_bytes chart
        (λ x y. get_or (bits_of (digits_in (chart.width * chart.height) (drop from file.now))) (y * chart.width + x) false)) pixels.old }
{
    let bytes = all_bytes(chart);
    let mut at = from;
    let mut x = 0;
    for i in 0..bytes {
        let width = chart.width;
        let gathered = gather(file, at, in_byte(width - x));
        pixels[i] = gathered.byte;
        at = gathered.end;
        x += 8;
        if width <= x {
            x = 0;
        }
    }
}

// How many of the pixels that are left of a row one byte holds.
fn in_byte(left: usize) -> usize
    ensures { result ≡ min left 8 }
{
    left.min(8)
}

// Gathers `n` digits, which are there and at most eight, into the high bits of a byte. What else stands
// between them is white space, which is below every digit.
fn gather(file: &[u8], from: usize, n: usize) -> Gathered
    requires { (1 ≤ n) × (n ≤ 8) × (whole (digits_in n (drop from file.now)) ≡ true) }
    ensures { (result.byte ≡ packed n (λ j. get_or (bits_of (digits_in n (drop from file.now))) j false) * 2 ^ (8 - n))
        × (behind_digits (digits_in n (drop from file.now)) ≡ some (drop result.end file.now)) }
{
    let mut byte = 0;
    let mut wanted = n;
    let mut i = from;
    // No `for`: it would look for the file's end at each byte, and these digits are known to be there.
    while 0 < wanted {
        let b = file[i];
        i += 1;
        if b'0' <= b {
            byte = byte * 2 + (b - b'0');
            wanted -= 1;
        }
    }
    Gathered {
        byte: byte << (8 - n),
        end: i,
    }
}

fn is_pixel(b: u8) -> bool
    ensures { result ≡ (eqb b 48 || eqb b 49) }
{
    matches!(b, b'0' | b'1')
}
