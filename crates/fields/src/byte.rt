//! The element of the byte field. The struct stands alone in its file, since the definitions of specs/ that its operations cite name it.
ghost use Rattle.std.specs.Prelude.{◌≡◌, T, nat_lt};

pub mod field;

/// An element of the field of 256 elements in which AES computes: bit i stands for x^i.
#[derive(Clone, Copy, PartialEq, Eq, Debug)]
pub struct Byte {
    value: u8,
    ghost small: { T (nat_lt value 256) },
}

/// The bits of an element.
impl From<Byte> for u8 {
    ghost from_gives = { λ byte value. value ≡ byte.value };

    fn from(byte: Byte) -> u8 {
        byte.value
    }
}
