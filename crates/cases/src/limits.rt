// The limits of a case, and what a lent buffer holds before the call (oracle/README.md, under The text form).

// The most values of a list.
pub const VALUES: usize = 16384;

// The most bytes that a word says, and the most room that is lent.
pub const ROOM: usize = 65536;

// What the places of a lent buffer hold before the call.
pub const INTEGER: i32 = -99999;

pub const DOUBLE: f64 = -99999.0;

pub const BYTE: u8 = 238;
