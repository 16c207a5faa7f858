//! The element of the nibble field. The struct stands alone in its file, since the definitions of specs/ that its operations cite name it.
ghost use Rattle.std.specs.Prelude.{◌≡◌, T, nat_lt};

pub mod field;

/// An element of the field of sixteen elements: bit i stands for x^i. No nibble that exists is above 15.
///
/// Byte and nibble stay two structs: sum and product are one line each over `multiply`, which is generic, and the inverses differ, so a struct
/// over degree and polynomial would need the same two impls of `Field` and a law on its parameters besides.
#[derive(Clone, Copy, PartialEq, Eq, Debug)]
pub struct Nibble {
    value: u8,
    ghost small: { T (nat_lt value 16) },
}

/// The bits of an element, below 16.
impl From<Nibble> for u8 {
    ghost from_gives = { λ nibble value. value ≡ nibble.value };

    fn from(nibble: Nibble) -> u8 {
        nibble.value
    }
}
