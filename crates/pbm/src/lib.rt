// Netpbm's PBM pictures, plain (P1) and raw (P4): read into a chart, and a chart written as one.
//
// A survey boat's file is a chart's rows behind a short header: a raw raster lies as a chart's bytes do.
// Nothing is allocated: the file and the pixels are lent. A call that refuses leaves what it is lent as
// it was. Behind a picture nothing is looked at, so that a caller can go on there.
#![tactic(auto)]

mod blanks;
mod decimal;
mod header;
mod letters;
mod plain;
mod raw;
mod read;
mod write;

use chart::Chart;
pub use read::read_pbm;
pub use write::write_pbm;

// A picture that was read: its chart, and how many bytes of the file its image took.
#[derive(Clone, Copy)]
pub struct Picture {
    pub chart: Chart,
    pub bytes: usize,
}
