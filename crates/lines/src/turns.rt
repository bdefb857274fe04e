// What a program that answers lines does next. It answers each line that it holds; when it holds no
// further line, or its output has no room for another answer, it writes what waits; and only when
// nothing waits it reads on, or ends. So whoever sends a line and waits has its answer.
ghost use Rattle.std.specs.Prelude.{◌≡◌};
ghost use Rattle.lines.specs.Turns.{begun, fed_state, answered_state, writes, turn_of, next_turn};

use crate::reader::{Reader, Taken, fed as fed_reader, fresh, take};

// Between two turns: what of the input is held, and how many bytes at the front of the output wait to
// be written.
#[derive(Clone, Copy)]
pub struct State {
    pub reader: Reader,
    pub waiting: usize,
}

#[derive(Clone, Copy)]
pub enum Turn {
    // The line between two places of the input is answered behind what waits.
    Line { from: usize, to: usize, next: State },
    // So many bytes of the output, all that wait, are written.
    Write { bytes: usize, next: State },
    // The input is read into its buffer from a place on, and `fed` is told how many bytes came.
    Read { at: usize, next: State },
    End,
}

// Nothing is read, and nothing waits.
pub fn begin() -> State
    ensures { result ≡ begun }
{
    State {
        reader: fresh(),
        waiting: 0,
    }
}

// The state once `got` more bytes stand in the input's buffer. None means that the input has ended.
pub fn fed(s: State, got: usize) -> State
    ensures { result ≡ fed_state s got }
{
    State {
        reader: fed_reader(s.reader, got),
        ..s
    }
}

// The state once an answer was put, and the output waits up to `end`.
pub fn answered(s: State, end: usize) -> State
    ensures { result ≡ answered_state s end }
{
    State { waiting: end, ..s }
}

// What is to be done next, where another answer has room behind `most` bytes and not behind more.
#[tactic(auto, unfolding(crate::specs::Turns::next_turn))]
pub fn next(s: State, most: usize, input: &mut [u8]) -> Turn
    ensures { record { answer = result; out = input.new } ≡ next_turn s most input.old }
{
    if most < s.waiting {
        return write(s.reader, s.waiting);
    }
    turn_of(s, take(s.reader, input))
}

// The turn that a reader's answer asks for.
fn turn_of(s: State, taken: Taken) -> Turn
    ensures { result ≡ turn_of s taken }
{
    match taken {
        Taken::Line { from, to, next } => Turn::Line {
            from,
            to,
            next: State { reader: next, ..s },
        },
        Taken::More { next, .. } if 0 < s.waiting => write(next, s.waiting),
        Taken::More { at, next } => Turn::Read {
            at,
            next: State {
                reader: next,
                waiting: 0,
            },
        },
        Taken::End if 0 < s.waiting => write(s.reader, s.waiting),
        Taken::End => Turn::End,
    }
}

fn write(r: Reader, waiting: usize) -> Turn
    ensures { result ≡ writes r waiting }
{
    Turn::Write {
        bytes: waiting,
        next: State {
            reader: r,
            waiting: 0,
        },
    }
}
