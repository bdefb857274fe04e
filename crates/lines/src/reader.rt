// A line at a time, out of a buffer that is refilled.
ghost use Rattle.std.specs.Prelude.{◌≡◌, ◌≤◌};
ghost use Rattle.lines.specs.Reader.{fresh_reader, fed_reader, in_order, line_ends, input_ends, taken};

use crate::refill::make_room;
use words::find;

// The bytes of a buffer from `start` to `end` were read and are not handed out yet, and those up to
// `seen` hold no newline. `over`: the input has ended. `long`: inside a line that the buffer cannot
// hold, which is being passed over.
#[derive(Clone, Copy)]
pub struct Reader {
    pub start: usize,
    pub seen: usize,
    pub end: usize,
    pub over: bool,
    pub long: bool,
}

#[derive(Clone, Copy)]
pub enum Taken {
    // A line, without its newline: the bytes of the buffer between two places. There are none of a line
    // that is longer than the buffer.
    Line {
        from: usize,
        to: usize,
        next: Reader,
    },
    // The caller is to read into the buffer from a place on, and then to call `fed`.
    More {
        at: usize,
        next: Reader,
    },
    End,
}

// The reader of an input of which nothing was read yet.
pub(crate) fn fresh() -> Reader
    ensures { result ≡ fresh_reader }
{
    Reader {
        start: 0,
        seen: 0,
        end: 0,
        over: false,
        long: false,
    }
}

// The reader once `got` more bytes stand in the buffer. None means that the input has ended.
pub(crate) fn fed(r: Reader, got: usize) -> Reader
    ensures { result ≡ fed_reader r got }
{
    Reader {
        end: r.end.saturating_add(got),
        over: got == 0 || r.over,
        ..r
    }
}

// The next line of the buffer, or what is to be done to get it. Places of `r` that lie outside the
// buffer count as its end.
#[tactic(auto, unfolding(crate::specs::Reader::took, crate::specs::Reader::taken))]
pub(crate) fn take(r: Reader, buffer: &mut [u8]) -> Taken
    ensures { record { answer = result; out = buffer.new } ≡ taken r buffer.old }
{
    let held = within(r, buffer.len());
    let end = held.end;
    let at = find(&buffer[..end], b'\n', held.seen);
    if at < end {
        return line(held, at, at + 1);
    }
    if held.over {
        return last(held);
    }
    make_room(held, buffer)
}

// The reader with its places in order, and within `n` bytes.
fn within(r: Reader, n: usize) -> Reader
    ensures { (result ≡ in_order r n) × (result.start ≤ result.seen) × (result.seen ≤ result.end) × (result.end ≤ n) }
{
    let end = r.end.min(n);
    let start = r.start.min(end);
    Reader {
        start,
        seen: r.seen.clamp(start, end),
        end,
        ..r
    }
}

// A line ends at `to`, and the next begins at `next`.
fn line(r: Reader, to: usize, next: usize) -> Taken
    ensures { result ≡ line_ends r to next }
{
    Taken::Line {
        from: if r.long { to } else { r.start },
        to,
        next: Reader {
            start: next,
            seen: next,
            long: false,
            ..r
        },
    }
}

// The input has ended, and no newline is left.
fn last(r: Reader) -> Taken
    ensures { result ≡ input_ends r }
{
    if r.long || r.start < r.end {
        return line(r, r.end, r.end);
    }
    Taken::End
}
