// Answers the picture on standard input with three lines: the outline from its first start, the outline
// simplified, and the numbers of what is left; one that is no picture, with one line.
// `step` says what is to be done next; here it is done, and nothing else. A read or a write that fails is
// told on standard error, and ends the program.
#![tactic(auto)]

mod answer;
mod step;

ghost use Rattle.std.specs.Prelude.{◌+◌, ◌≤◌, length, ◌≡◌, Some};
ghost use Rattle.survey.specs.Survey.{may_come};
ghost use Rattle.survey.specs.inside.Reading.{Nearer};

use std::io::{Read, Write};
use std::rt::HostRuntime;
use step::{Turn, step};

// The largest chart has 262,144 pixels: its plain picture fits, with a space before each digit. Three lines
// have at most 32,768 digits each, and their newlines.
fn main(rt: HostRuntime) {
    let mut input = [0u8; 600000];
    let mut output = [0u8; 98307];
    run(&rt, &mut input, &mut output);
}

// Lends the buffers on as slices.
fn run(rt: &HostRuntime, input: &mut [u8; 600000], output: &mut [u8; 98307]) {
    survey(rt, input, output);
}

// Reads until the step says that the answer is to be written, and writes it.
fn survey(rt: &HostRuntime, input: &mut [u8], output: &mut [u8])
    requires { 98307 ≤ length output.old }
{
    let mut held = 0;
    let mut more = true;
    loop {
        match step(&input[0..held], more, output) {
            Turn::Read => {
                let Some(got) = read(rt, input, held) else {
                    return;
                };
                held = got.held;
                more = got.more;
            }
            Turn::Write(bytes) => {
                write(rt, &output[0..bytes]);
                return;
            }
        }
    }
}

// How many bytes of the input are held, and whether more may come.
#[derive(Clone, Copy)]
pub struct Got {
    pub held: usize,
    pub more: bool,
}

// Reads on behind the bytes that are held. Where the input cannot be read, that is told.
fn read(rt: &HostRuntime, input: &mut [u8], held: usize) -> Option<Got>
    requires { held ≤ length input.old }
    ensures { Nearer result held (length input.old) }
{
    let size = input.len();
    match rt.stdin().read(&mut input[held..]) {
        Ok(n) => Some(fed(held, n, size)),
        Err(_) => {
            tell(rt, b"survey: the input cannot be read\n");
            None
        }
    }
}

// What is held of an input with a buffer of `size` bytes once `n` more came: none means that the input has
// ended. More may come until it has, or its buffer is full.
fn fed(held: usize, n: usize, size: usize) -> Got
    requires { held + n ≤ size }
    ensures { (result ≡ record { held = held + n; more = may_come n (held + n) size })
        × Nearer (Some result) held size }
{
    Got {
        held: held + n,
        more: (0 < n) & (held + n < size),
    }
}

fn write(rt: &HostRuntime, part: &[u8]) {
    if rt.stdout().write_all(part).is_err() {
        tell(rt, b"survey: the output cannot be written\n");
    }
}

// Puts a line on standard error. Where that cannot be written either, nothing is told.
fn tell(rt: &HostRuntime, line: &[u8]) {
    let _told = rt.stderr().write_all(line).is_ok();
}
