// One turn of the program: what is to be done next and, where that is a line, its answer put behind what
// waits.
ghost use Rattle.std.specs.Prelude.{◌≡◌, ◌+◌, ◌≤◌, length};
ghost use Rattle.texts.specs.Put.{held, put_by};
ghost use Rattle.lines.specs.Turns.{line, step_of};
ghost use Rattle.frames.specs.Answer.{answer_to};

use lines::{State, Turn};
use texts::Pen;

// An answer has at most 32,768 digits, and its newline: the longest fits an output of 36,864 bytes behind
// so many.
const MOST: usize = 4095;

// A turn that is a line is answered here, and leaves nothing to do.
pub fn step(s: State, input: &mut [u8], output: &mut [u8]) -> Turn
    requires { 36864 ≤ length output.old }
    ensures { record { answer = result; out = (input.new, output.new) }
        ≡ step_of answer_to s 4095 input.old output.old }
{
    let turn = lines::next(s, MOST, input);
    if let Turn::Line { from, to, next } = turn {
        let mut pen = Pen {
            out: output,
            at: next.waiting,
        };
        put_line(&input[from..to], &mut pen);
        return Turn::Line {
            from,
            to,
            next: lines::answered(next, pen.at),
        };
    }
    turn
}

// Puts the answer to a line, and a newline.
fn put_line(text: &[u8], pen: &mut Pen)
    requires { pen.old.at + 32769 ≤ length pen.old.out.now }
    ensures put { held pen.new ≡ put_by pen.old (line (answer_to text.now)) }
    ensures same { pen.new.out.ghost_name ≡ pen.old.out.ghost_name }
{
    frames::answer(text, pen);
    pen.put_byte(b'\n');
}
