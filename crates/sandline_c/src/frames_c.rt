// Frames: a call as a line of hexadecimal digits.
ghost use Rattle.std.specs.Prelude.{◌≡◌};
ghost use Rattle.frames.specs.Answer.{answer_to};
ghost use Rattle.texts.specs.Put.{put};

use texts::Pen;

// Puts the answer to a line, which is a frame or none, at a place of `out`, and answers the place behind it;
// where it does not fit, the place itself.
#[unsafe(no_mangle)]
pub extern "C" fn sandline_answer(line: &[u8], out: &mut [u8], at: usize) -> usize
    ensures { record { answer = result; out = out.new } ≡ put (answer_to line.now) out.old at }
{
    let mut pen = Pen { out, at };
    frames::answer(line, &mut pen);
    pen.at
}
