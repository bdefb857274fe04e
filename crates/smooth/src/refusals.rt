// What a round of subdivision refuses: the lowest refusal that applies to its points, its flags, its
// settings and the room for what it makes.
ghost use Rattle.std.specs.Prelude.{◌≤◌, ◌≡◌};
ghost use Rattle.point.specs.Outcomes.{verdict};
ghost use Rattle.smooth.specs.Calls.{bad_settings, too_short, round_refusal};

use crate::scheme::Settings;
use point::Refusal;

// The lowest refusal that applies, where the buffers have room for `room` values and for `flags` flags.
pub(crate) fn judge(
    points: &[f64],
    corners: &[u8],
    settings: Settings,
    closed: bool,
    room: usize,
    flags: usize,
) -> Result<(), Refusal>
    ensures { result ≡ verdict (round_refusal points.now corners.now settings closed room flags) }
{
    point::judge_points(points)?;
    let n = points.len() / 2;
    if closed && n < 2 {
        return Err(Refusal::TooFew);
    }
    if point::bad_flags(corners, point::seen(n, closed)) {
        return Err(Refusal::BadFlags);
    }
    if bad_settings(settings) {
        return Err(Refusal::BadSettings);
    }
    if short(n, room, flags) {
        return Err(Refusal::NoRoom);
    }
    Ok(())
}

// Whether the ratio or the length is out of range, or NaN.
fn bad_settings(settings: Settings) -> bool
    ensures { result ≡ bad_settings settings }
{
    !point::within(1.0, settings.ratio, 1000.0) || !point::within(0.0, settings.length, 65536.0)
}

// Whether buffers of `out` values and of `flags` flags are too short for a round of `n` points.
fn short(n: usize, out: usize, flags: usize) -> bool
    requires { n ≤ 4096 }
    ensures { result ≡ too_short n out flags }
{
    let places = (n * 2).saturating_sub(1);
    out < places * 2 || flags < places
}
