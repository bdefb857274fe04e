// Answers the cases of standard input, one to a line, with a line each. oracle/README.md says what a case is; each subject
// has a module, which answers the calls of that subject. Anything else is a bad line.
//
// Nothing is promised of the answers but that they come: the program is safe and ends.
#![tactic(auto)]

mod areas_cases;
mod chart_cases;
mod forms;
mod limits;
mod lists;
mod pbm_cases;
mod point_cases;
mod putting;
mod reading;
mod reduce_cases;
mod simplify_cases;
mod smooth_cases;
mod spiral_cases;
mod split_cases;
mod sqrt_cases;
mod util_cases;
mod walker_cases;

use lines::Turn;
use putting::Answer;
use std::io::{Read, Write};
use std::rt::HostRuntime;
use texts::Pen;

// The longest line, of a zoom of 16,384 values of up to 12 bytes and as many numbers of 17, has less than 480,000 bytes.
const INPUT: usize = 1048576;

const OUTPUT: usize = 2097152;

// Once more than this waits in the output, it is written out. The longest answer, of `reduce`, two lists of 65,536 values of
// up to 12 bytes each and 65,536 marks of 2, is shorter than 1,704,000 bytes, and so fits behind what is kept.
const FULL: usize = 393152;

fn main(rt: HostRuntime) {
    let mut input = [0u8; INPUT];
    let mut output = [0u8; OUTPUT];
    run(&rt, &mut input, &mut output);
}

// Lends the buffers on as slices.
fn run(rt: &HostRuntime, input: &mut [u8; INPUT], output: &mut [u8; OUTPUT]) {
    answer_all(rt, input, output);
}

// Answers each line. A proved loop has to end, and nothing says that an input does: so it counts its
// turns, up to a number that no run uses up.
fn answer_all(rt: &HostRuntime, input: &mut [u8], output: &mut [u8]) {
    let mut state = lines::begin();
    for _ in 0..u64::MAX {
        match lines::next(state, FULL, input) {
            Turn::Line { from, to, next } => {
                let end = answer(&input[from..to], output, next.waiting);
                state = lines::answered(next, end);
            }
            Turn::Write { bytes, next } => {
                if !write(rt, output, bytes) {
                    return;
                }
                state = next;
            }
            Turn::Read { at, next } => {
                let Some(n) = read(rt, &mut input[at..]) else {
                    return;
                };
                state = lines::fed(next, n);
            }
            Turn::End => {
                return;
            }
        }
    }
}

// Puts the answer to a line at a place of `out`, and answers the place behind it: the pen is made here, of the program's
// own buffer. The first word of a line names the call: the subject that has it puts the answer, and every other puts
// nothing.
fn answer(line: &[u8], out: &mut [u8], at: usize) -> usize {
    let mut answer = Answer {
        pen: Pen { out, at },
    };
    sqrt_cases::answer(line, &mut answer);
    point_cases::answer(line, &mut answer);
    util_cases::answer(line, &mut answer);
    chart_cases::answer(line, &mut answer);
    walker_cases::answer(line, &mut answer);
    spiral_cases::answer(line, &mut answer);
    pbm_cases::answer(line, &mut answer);
    split_cases::answer(line, &mut answer);
    reduce_cases::answer(line, &mut answer);
    areas_cases::answer(line, &mut answer);
    simplify_cases::answer(line, &mut answer);
    smooth_cases::answer(line, &mut answer);
    answer.end_line(at);
    answer.pen.at
}

// How many bytes came, none at the end of the input. Where it cannot be read, that is told. (Each program has its own
// reading and telling, a few lines: a crate for them would be no plainer.)
fn read(rt: &HostRuntime, part: &mut [u8]) -> Option<usize> {
    match rt.stdin().read(part) {
        Ok(n) => Some(n),
        Err(_) => {
            tell(rt, b"cases: the input cannot be read\n");
            None
        }
    }
}

// Writes the output up to a place, and answers whether all was written.
fn write(rt: &HostRuntime, output: &[u8], to: usize) -> bool {
    if to <= output.len() {
        if rt.stdout().write_all(&output[0..to]).is_ok() {
            return true;
        }
    }
    tell(rt, b"cases: the output cannot be written\n");
    false
}

// Puts a line on standard error. Where that cannot be written either, nothing is told.
fn tell(rt: &HostRuntime, line: &[u8]) {
    let _told = rt.stderr().write_all(line).is_ok();
}
