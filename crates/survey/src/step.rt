// One turn of the program: whether it reads on, or the answer, put into the output.
ghost use Rattle.std.specs.Prelude.{◌≤◌, ◌≡◌, length};
ghost use Rattle.survey.specs.Survey.{step_of};

use crate::answer::{put_lines, put_refusal};

// An enum of its own, though it has the shape of an Option: its names say what the program does next.
#[derive(Clone, Copy)]
pub enum Turn {
    // More of the input is read.
    Read,
    // So many bytes of the output are written, and the program ends.
    Write(usize),
}

// What is to be done with `file`, as far as it came. An image that is whole is answered; else more is read,
// if more may come, and the refusal is answered if not.
pub fn step(file: &[u8], more: bool, output: &mut [u8]) -> Turn
    requires { 98307 ≤ length output.old }
    ensures { record { answer = result; out = output.new } ≡ step_of file.now more output.old }
{
    let mut pixels = [0u8; 32768];
    match pbm::read_pbm(file, &mut pixels) {
        Ok(picture) => Turn::Write(put_lines(picture.chart, &pixels, output)),
        Err(refusal) => {
            if more {
                return Turn::Read;
            }
            Turn::Write(put_refusal(refusal, output))
        }
    }
}
