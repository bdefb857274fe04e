// Smoothing: one round of subdivision.
ghost use Rattle.std.specs.Prelude.{◌≡◌};
ghost use Rattle.smooth.specs.Calls.{subdivided_of};
ghost use Rattle.sandline_c.specs.Handed.{round_for_c};
ghost use Rattle.sandline_c.specs.Read.{settings_from};

use smooth::Settings;

// One round; `finished` says whether each point that entered left both parts of its segment at most
// `length` long.
#[unsafe(no_mangle)]
pub extern "C" fn sandline_subdivide_keep_corners(
    points: &[f64],
    corners: &[u8],
    ratio: f64,
    length: f64,
    closed: bool,
    out: &mut [f64],
    flags: &mut [u8],
    count: &mut [usize; 1],
    finished: &mut [bool; 1],
) -> u8
    ensures { record { answer = result; out = (out.new, flags.new, count.new, finished.new) }
        ≡ round_for_c (subdivided_of points.now corners.now (settings_from ratio length) closed out.old flags.old)
        finished.old }
{
    let settings = Settings { ratio, length };
    match smooth::subdivide_keep_corners(points, corners, settings, closed, out, flags) {
        Ok(round) => {
            *count = [round.points];
            *finished = [round.finished];
            0
        }
        Err(refusal) => {
            *count = [0];
            refusal.number()
        }
    }
}
