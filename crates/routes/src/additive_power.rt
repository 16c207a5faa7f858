//! Powers of a byte whose exponent is a power of two. They carry sums to sums, so each is a sum over the bits of the byte.
ghost use Rattle.std.specs.Prelude.{◌≡◌};
ghost use Rattle.fields.specs.Bytes.{byte, byte_product};
ghost use Rattle.fields.specs.Matrices.{by_columns};
ghost use Rattle.fields.specs.declared.byte.Byte.{Byte};
ghost use Rattle.routes.specs.AdditivePowers.{exponent};
ghost use Rattle.routes.specs.Formulas.{byte_power};

use crate::select::{bit, keep};
use fields::{Byte, Field};

mod which;

pub(crate) use which::AdditivePower;

impl AdditivePower {
    /// The powers of 01, 02, 04, .. 80.
    fn columns(self) -> [u8; 8]
        ensures { (a : Byte) → byte (by_columns result a.value) ≡ byte_power (exponent self) a }
    {
        match self {
            AdditivePower::Fourth => [0x01, 0x10, 0x1B, 0xAB, 0x5E, 0x97, 0xB3, 0xC5],
            AdditivePower::Sixteenth => [0x01, 0x5E, 0xE4, 0xE8, 0x4D, 0x91, 0x1D, 0x6C],
            AdditivePower::SixtyFourth => [0x01, 0x4D, 0xFA, 0x4A, 0x02, 0x9A, 0xEF, 0x94],
        }
    }

    /// The power of a byte.
    pub(crate) fn of(self, a: Byte) -> Byte
        ensures { result ≡ byte_power (exponent self) a }
    {
        Byte::from(sum_of_columns(&self.columns(), u8::from(a)))
    }
}

/// The 16th and the 17th power of a byte. The latter lies in the subfield of sixteen elements.
pub(crate) fn sixteenth_and_next(a: u8) -> (Byte, Byte)
    ensures sixteenth { result.0 ≡ byte_power 16 (byte a) }
    ensures next { result.1 ≡ byte_product result.0 (byte a) }
{
    let element = Byte::from(a);
    let a16 = AdditivePower::Sixteenth.of(element);
    (a16, a16.product(element))
}

/// The sum of the columns at which the byte has a bit.
pub(crate) fn sum_of_columns(columns: &[u8; 8], byte: u8) -> u8
    ensures { result ≡ by_columns columns.now byte }
{
    let mut sum = 0;
    for (i, column) in columns.iter().enumerate() {
        sum ^= keep(*column, bit(byte, i) == 1);
    }
    sum
}
