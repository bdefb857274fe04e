// Why a call hands out nothing, and the numbers of document 01.
ghost use Rattle.std.specs.Prelude.{◌≡◌};
ghost use Rattle.point.specs.Refusals.{refusal_number, number_of};

// The lowest that applies is given, and no lent buffer is changed.
#[derive(Clone, Copy, PartialEq, Eq)]
pub enum Refusal {
    // A chart's size, a spiral's size or a field of its state is out of range, or the pixels are too few.
    BadSize,
    // A list of points handed in has over 4,096 of them.
    TooMany,
    // An odd count of values, or a coordinate out of range, NaN or infinite.
    BadPoint,
    // There are fewer points than the call can do anything with.
    TooFew,
    // A tolerance is out of range or NaN.
    BadTolerance,
    // The flags are too many or too few, or one is neither 0 nor 1.
    BadFlags,
    // A ratio, a length or a pair is out of range or NaN.
    BadSettings,
    // The start of a walk has no exit, or a chart is blank.
    NoWay,
    // After some run a walk has over 1,000,000 steps.
    Stuck,
    // A lent buffer is too short.
    NoRoom,
    // A line is no frame.
    BadFrame,
    // A file is no picture: its header is wrong, a byte of a plain raster is, or pixels are missing.
    BadPicture,
}

impl Refusal {
    // The refusal's number in document 01. (A match and no discriminants: the table reads as document 01 has it.)
    pub fn number(self) -> u8
        ensures { result ≡ refusal_number self }
    {
        match self {
            Refusal::BadSize => 1,
            Refusal::TooMany => 2,
            Refusal::BadPoint => 3,
            Refusal::TooFew => 4,
            Refusal::BadTolerance => 5,
            Refusal::BadFlags => 6,
            Refusal::BadSettings => 7,
            Refusal::NoWay => 8,
            Refusal::Stuck => 9,
            Refusal::NoRoom => 10,
            Refusal::BadFrame => 11,
            Refusal::BadPicture => 12,
        }
    }
}

// The number of an answer in document 01: 0 when the call is done.
pub fn number<T: Copy>(answer: Result<T, Refusal>) -> u8
    ensures { result ≡ number_of answer }
{
    match answer {
        Ok(_) => 0,
        Err(refusal) => refusal.number(),
    }
}
