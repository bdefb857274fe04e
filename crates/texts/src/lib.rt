// Bytes and numbers as text, put at a place of a buffer that the caller lends: for the frames, the
// pictures and the programs, which write their answers by it.
//
// Nothing fails: what does not fit is not written.
#![tactic(auto)]

mod decimal;
mod glyphs;
mod put;

pub use put::Pen;
