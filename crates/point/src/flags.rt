// Flags: a byte for each point, 0 or 1.
ghost use Rattle.std.specs.Prelude.{◌≡◌};
ghost use Rattle.std.specs.List.{list_all};
ghost use Rattle.point.specs.Limits.{is_flag, bad_flags};

// Whether there are not `m` flags, or one is neither 0 nor 1.
pub fn bad_flags(flags: &[u8], m: usize) -> bool
    ensures { result ≡ bad_flags m flags.now }
{
    flags.len() != m || !all_flags(flags)
}

// Whether every flag is 0 or 1.
fn all_flags(flags: &[u8]) -> bool
    ensures { result ≡ list_all is_flag flags.now }
{
    flags.iter().all(|flag| is_flag(*flag))
}

// Whether a flag is 0 or 1.
fn is_flag(v: u8) -> bool
    ensures { result ≡ is_flag v }
{
    v <= 1
}
