//! The byte field.
ghost use Rattle.std.specs.Prelude.{◌≡◌};
ghost use Rattle.fields.specs.Bytes.{byte, byte_sum, byte_product, byte_inverse};
ghost use Rattle.fields.specs.WordLaws.{byte_laws};

use crate::byte::Byte;
use crate::field::Field;
use crate::modular::multiply;

/// The element that the bits of a number stand for.
impl From<u8> for Byte {
    ghost from_gives = { λ value element. element ≡ byte value };

    fn from(value: u8) -> Byte {
        Byte { value }
    }
}

impl Field for Byte {
    ghost zero = { byte 0 };

    ghost one = { byte 1 };

    ghost marker = { byte 0x20 };

    ghost sum = { byte_sum };

    ghost product = { byte_product };

    ghost inverse = { byte_inverse };

    ghost laws = { byte_laws };

    fn zero() -> Byte {
        Byte::from(0)
    }

    fn one() -> Byte {
        Byte::from(1)
    }

    fn marker() -> Byte {
        Byte::from(0x20)
    }

    fn sum(self, other: Byte) -> Byte {
        Byte::from(self.value ^ other.value)
    }

    fn product(self, other: Byte) -> Byte {
        Byte::from(multiply::<8, 0x11B>(self.value, other.value))
    }

    fn inverse(self) -> Byte {
        let a2 = self.product(self);
        let a3 = a2.product(self);
        let a6 = a3.product(a3);
        let a12 = a6.product(a6);
        let a15 = a12.product(a3);
        let a30 = a15.product(a15);
        let a60 = a30.product(a30);
        let a120 = a60.product(a60);
        let a240 = a120.product(a120);
        let a252 = a240.product(a12);
        a252.product(a2)
    }
}
