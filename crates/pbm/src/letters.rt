// What a byte of a picture's text is.
ghost use Rattle.std.specs.Prelude.{◌≡◌};
ghost use Rattle.pbm.specs.Header.{white, line_end, hash, digit};

// Space, TAB, LF, VT, FF or CR.
#[tactic(auto, unfolding(crate::specs::Header::white))]
pub(crate) fn white(b: u8) -> bool
    ensures { result ≡ white b }
{
    matches!(b, b' ' | 9..=13)
}

#[tactic(auto, unfolding(crate::specs::Header::line_end))]
pub(crate) fn line_end(b: u8) -> bool
    ensures { result ≡ line_end b }
{
    matches!(b, b'\n' | b'\r')
}

#[tactic(auto, unfolding(crate::specs::Header::hash))]
pub(crate) fn hash(b: u8) -> bool
    ensures { result ≡ hash b }
{
    b == b'#'
}

#[tactic(auto, unfolding(crate::specs::Header::digit))]
pub(crate) fn digit(b: u8) -> bool
    ensures { result ≡ digit b }
{
    b.is_ascii_digit()
}
