// Answers the frames of standard input, one to a line, with a line each, until the input ends. `step` says what
// is to be done next; here it is done, and nothing else. A read or a write that fails is told on standard
// error, and ends the program.
#![tactic(auto)]

mod step;

ghost use Rattle.std.specs.Prelude.{◌≤◌, length};

use lines::Turn;
use std::io::{Read, Write};
use std::rt::HostRuntime;
use step::step;

// A line has at most 32,768 digits either way, and its newline: the longest fits the input, and fits the
// output behind 4,095 bytes.
fn main(rt: HostRuntime) {
    let mut input = [0u8; 33792];
    let mut output = [0u8; 36864];
    answer_all(&rt, &mut input, &mut output);
}

// Answers each line. A proved loop has to end, and nothing says that an input does: so it counts its
// turns, up to a number that no run uses up.
fn answer_all(rt: &HostRuntime, input: &mut [u8], output: &mut [u8])
    requires { 36864 ≤ length output.old }
{
    let mut state = lines::begin();
    for _ in 0..u64::MAX {
        match step(state, input, output) {
            Turn::Line { next, .. } => {
                state = next;
            }
            Turn::Write { bytes, next } => {
                if !write(rt, &output[..bytes]) {
                    return;
                }
                state = next;
            }
            Turn::Read { at, next } => {
                let Some(n) = read(rt, &mut input[at..]) else {
                    return;
                };
                state = lines::fed(next, n);
            }
            Turn::End => {
                return;
            }
        }
    }
}

// How many bytes came, none at the end of the input. Where it cannot be read, that is told. (Each program has its own
// reading and telling, a few lines: a crate for them would be no plainer.)
fn read(rt: &HostRuntime, part: &mut [u8]) -> Option<usize> {
    match rt.stdin().read(part) {
        Ok(n) => Some(n),
        Err(_) => {
            tell(rt, b"sandline: the input cannot be read\n");
            None
        }
    }
}

// Whether all was written.
fn write(rt: &HostRuntime, part: &[u8]) -> bool {
    if rt.stdout().write_all(part).is_ok() {
        return true;
    }
    tell(rt, b"sandline: the output cannot be written\n");
    false
}

// Puts a line on standard error. Where that cannot be written either, nothing is told.
fn tell(rt: &HostRuntime, line: &[u8]) {
    let _told = rt.stderr().write_all(line).is_ok();
}
