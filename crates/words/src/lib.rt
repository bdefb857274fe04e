// The words of a line, and what a word says: a number, hexadecimal or decimal, or bytes. For whoever
// reads lines: the frames, and the programs.
//
// Nothing fails, for any line: what is no number, or no bytes, is answered `None`. What writes numbers
// stands in `texts`.
#![tactic(auto)]

mod bytes;
mod decimal;
mod digits;
mod hexadecimal;
mod line;

pub use bytes::{is_dash, read_bytes, read_pairs};
pub use decimal::{read_integer, read_natural};
pub use digits::digit;
pub use hexadecimal::{read_hex, read_pattern};
pub use line::{find, word, words};
