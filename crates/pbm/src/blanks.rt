// White space and comments: whether they begin at a place, and where they end.
ghost use Rattle.std.specs.Prelude.{◌-◌, ◌≤◌, false, ◌||◌, ◌≡◌, length, drop};
ghost use Rattle.pbm.specs.Header.{white, hash, begins, commented, behind, past_line};

use crate::letters::{hash, line_end, white};

// Whether white space or a comment begins at a place.
pub(crate) fn parted(file: &[u8], at: usize) -> bool
    ensures { result ≡ (begins white (drop at file.now) || begins hash (drop at file.now)) }
{
    file.get(at).is_some_and(|b| white(*b) || hash(*b))
}

// The place behind white space and comments.
pub(crate) fn behind(file: &[u8], from: usize) -> usize
    ensures { drop result file.now ≡ behind false (drop from file.now) }
{
    let mut comment = false;
    for i in from..file.len() {
        let b = file[i];
        if !passed(comment, b) {
            return i;
        }
        comment = commented(comment, b);
    }
    file.len()
}

// Whether a byte stands in a comment, begins one or is white space.
fn passed(comment: bool, b: u8) -> bool
    ensures { result ≡ (comment || white b || hash b) }
{
    comment || white(b) || hash(b)
}

// Whether a comment is open behind a byte.
fn commented(comment: bool, b: u8) -> bool
    ensures { result ≡ commented comment b }
{
    if comment { !line_end(b) } else { hash(b) }
}

// The place behind the end of a line; that of the file, where the line does not end.
pub(crate) fn past_line(file: &[u8], from: usize) -> usize
    requires { from ≤ length file.now }
    ensures { result ≡ length file.now - length (past_line (drop from file.now)) }
{
    for i in from..file.len() {
        if line_end(file[i]) {
            return i + 1;
        }
    }
    file.len()
}
