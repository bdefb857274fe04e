// Areas of two lists together.
ghost use Rattle.std.specs.Prelude.{◌≡◌};
ghost use Rattle.areas.specs.Totals.{together_of};

use crate::Areas;
use point::Refusal;

// The areas of two lists together. Where one of the three sums leaves 64 bits there is no room for it.
pub fn together(a: Areas, b: Areas) -> Result<Areas, Refusal>
    ensures { result ≡ together_of a b }
{
    Ok(Areas {
        whole: a.whole.checked_add(b.whole).ok_or(Refusal::NoRoom)?,
        kept: a.kept.checked_add(b.kept).ok_or(Refusal::NoRoom)?,
        gaps: a.gaps.checked_add(b.gaps).ok_or(Refusal::NoRoom)?,
    })
}
