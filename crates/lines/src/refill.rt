// Room for more of a line, at the end of what is held.
ghost use Rattle.std.specs.Prelude.{◌≡◌, ◌≤◌, length};
ghost use Rattle.lines.specs.Reader.{more, refill};

use crate::reader::{Reader, Taken};

// Makes room to read more: what is held goes to the front, or is dropped.
#[tactic(auto, unfolding(crate::specs::Reader::refill))]
pub(crate) fn make_room(r: Reader, buffer: &mut [u8]) -> Taken
    requires { (r.start ≤ r.end) × (r.end ≤ length buffer.old) }
    ensures { record { answer = result; out = buffer.new } ≡ refill r buffer.old }
{
    let n = r.end - r.start;
    if r.long || n == buffer.len() {
        return read_from(0, r.over, true);
    }
    buffer.copy_within(r.start..r.end, 0);
    read_from(n, r.over, false)
}

// More is to be read, behind `n` bytes that are held at the front.
fn read_from(n: usize, over: bool, long: bool) -> Taken
    ensures { result ≡ more n over long }
{
    Taken::More {
        at: n,
        next: Reader {
            start: 0,
            seen: n,
            end: n,
            over,
            long,
        },
    }
}
