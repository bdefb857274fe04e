// Lines of text in buffers that the caller lends, for a program that answers each line of its input: what
// it does next (`next`), turn by turn; and the words of a line, which `words` has.
//
// Nothing here reads or writes a file: the program reads into the input's buffer where a turn says, and
// writes of the output as much as it says. Nothing fails, for any state, buffer or line.
#![tactic(auto)]

mod reader;
mod refill;
mod turns;

pub use reader::Reader;
pub use turns::{State, Turn, answered, begin, fed, next};
pub use words::{find, word, words};
