//! Choices without a branch.
ghost use Rattle.std.specs.Prelude.{◌≡◌, ◌*◌, ◌<◌, if◌then◌else◌, nat_eq};
ghost use Rattle.fields.specs.Polynomials.{coefficient};

/// The byte where it is wanted, and else 00. `fields` has its own, which takes a bit as a number, so that no comparison stands in its loop.
pub(crate) fn keep(byte: u8, wanted: bool) -> u8
    ensures { result ≡ (if wanted then byte else 0) }
{
    byte & 0u8.wrapping_sub(u8::from(wanted))
}

/// The first byte, or the second where the first is 00. Worked out by a carry and not by a comparison, which the compiler may turn into a jump.
pub(crate) fn or_else(first: u8, second: u8) -> u8
    ensures { result ≡ (if nat_eq first 0 then second else first) }
{
    let some = (u16::from(first) + 0xFF) >> 8;
    first | (second & (some as u8).wrapping_sub(1))
}

/// Bit `place` of a byte.
pub(crate) fn bit(byte: u8, place: usize) -> u8
    requires { place < 8 }
    ensures value { result ≡ coefficient place byte }
    ensures bound { result < 2 }
{
    byte >> place & 1
}
