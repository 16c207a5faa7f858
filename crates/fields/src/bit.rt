ghost use Rattle.fields.specs.Bits.{bit, bit_sum, bit_product};
ghost use Rattle.std.specs.Prelude.{true, false};
ghost use Rattle.fields.specs.BitLaws.{bit_laws};

use crate::field::Field;

/// A bit.
#[derive(Clone, Copy, PartialEq, Eq, Debug)]
pub struct Bit {
    /// Whether it is 1.
    pub value: bool,
}

impl Field for Bit {
    ghost zero = { bit false };

    ghost one = { bit true };

    ghost marker = { bit true };

    ghost sum = { bit_sum };

    ghost product = { bit_product };

    ghost inverse = { λ a. a };

    ghost laws = { bit_laws };

    fn zero() -> Bit {
        Bit { value: false }
    }

    fn one() -> Bit {
        Bit { value: true }
    }

    fn marker() -> Bit {
        Self::one()
    }

    fn sum(self, other: Bit) -> Bit {
        Bit {
            value: self.value ^ other.value,
        }
    }

    fn product(self, other: Bit) -> Bit {
        Bit {
            value: self.value & other.value,
        }
    }

    fn inverse(self) -> Bit {
        self
    }
}
