//! The nibble field.
ghost use Rattle.std.specs.Prelude.{◌≡◌, ◌/◌};
ghost use Rattle.fields.specs.Nibbles.{nibble, nibble_sum, nibble_product, nibble_inverse};
ghost use Rattle.fields.specs.WordLaws.{nibble_laws};

use crate::field::Field;
use crate::modular::multiply;
use crate::nibble::Nibble;

impl Nibble {
    /// The low half of a byte.
    pub fn low(byte: u8) -> Nibble
        ensures { result ≡ nibble byte }
    {
        Nibble { value: byte % 16 }
    }

    /// The high half of a byte.
    pub fn high(byte: u8) -> Nibble
        ensures { result ≡ nibble (byte / 16) }
    {
        Nibble { value: byte / 16 }
    }
}

impl Field for Nibble {
    ghost zero = { nibble 0 };

    ghost one = { nibble 1 };

    ghost marker = { nibble 9 };

    ghost sum = { nibble_sum };

    ghost product = { nibble_product };

    ghost inverse = { nibble_inverse };

    ghost laws = { nibble_laws };

    fn zero() -> Nibble {
        Nibble::low(0)
    }

    fn one() -> Nibble {
        Nibble::low(1)
    }

    fn marker() -> Nibble {
        Nibble::low(9)
    }

    fn sum(self, other: Nibble) -> Nibble {
        Nibble::low(self.value ^ other.value)
    }

    fn product(self, other: Nibble) -> Nibble {
        Nibble::low(multiply::<4, 0x13>(self.value, other.value))
    }

    /// The first of 1 to 15 whose product with `self` is one, or 0 where none fits.
    fn inverse(self) -> Nibble {
        for value in 1..16u8 {
            let trial = Nibble::low(value);
            if self.product(trial) == Self::one() {
                return trial;
            }
        }
        Self::zero()
    }
}
