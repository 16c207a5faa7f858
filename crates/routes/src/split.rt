//! The route that splits off the subfield of sixteen elements.
ghost use Rattle.std.specs.Prelude.{◌≡◌};
ghost use Rattle.fields.specs.Bytes.{byte, byte_sum, byte_product};
ghost use Rattle.routes.specs.Formulas.{byte_power, by_bits, fourth, eighth};
ghost use Rattle.routes.specs.Inverting.{Inverts};
ghost use Rattle.routes.specs.Names.{name_text};
ghost use Rattle.routes.specs.declared.name.RouteName.TheVariants.{Split};

use crate::additive_power::sixteenth_and_next;
use crate::formula::Formula;
use crate::metered::Metered;
use crate::name::RouteName;
use crate::select::{bit, keep, or_else};
use fields::{Byte, Field};

/// With b = a^17, b^4 and b^8 by the bits of b, and t = b·b^8 + b^4, the inverse is a^16·t, or a^16·b^4 where t is 00.
#[derive(Clone, Copy)]
pub struct SplitFormula;

/// The route by that formula.
pub type Split = Metered<SplitFormula>;

/// What the formula goes through.
#[derive(Clone, Copy)]
pub struct SplitSteps {
    /// a^17.
    pub b: Byte,
    /// b^4.
    pub b4: Byte,
    /// b^8.
    pub b8: Byte,
    /// b·b^8 + b^4.
    pub t: Byte,
    /// The inverse of a.
    pub inverse: u8,
}

/// The sum of `at3`, `at6` and `at4` where b has bit 3, 6 and 4, and of bit 0.
fn sum_by_bits(at3: u8, at6: u8, at4: u8, b: u8) -> u8
    ensures { result ≡ by_bits at3 at6 at4 b }
{
    keep(at3, bit(b, 3) == 1) ^ keep(at6, bit(b, 6) == 1) ^ keep(at4, bit(b, 4) == 1) ^ bit(b, 0)
}

impl SplitFormula {
    /// The formula step by step.
    pub fn steps(a: u8) -> SplitSteps
        ensures b { result.b ≡ byte_power 17 (byte a) }
        ensures b4 { result.b4 ≡ fourth result.b }
        ensures b8 { result.b8 ≡ eighth result.b }
        ensures t { result.t ≡ byte_sum (byte_product result.b result.b8) result.b4 }
        ensures inverse { Inverts a result.inverse }
    {
        let (a16, b) = sixteenth_and_next(a);
        let b4 = Byte::from(sum_by_bits(0xB0, 0xE1, 0x0C, u8::from(b)));
        let b8 = Byte::from(sum_by_bits(0xED, 0x5C, 0x50, u8::from(b)));
        let t = b.product(b8).sum(b4);
        let inverse_of_b = Byte::from(or_else(u8::from(t), u8::from(b4)));
        SplitSteps {
            b,
            b4,
            b8,
            t,
            inverse: u8::from(a16.product(inverse_of_b)),
        }
    }
}

impl Formula for SplitFormula {
    type Choice = ();

    ghost called = { λ _. name_text Split };

    ghost chosen = { λ _. name_text Split };

    fn new(_choice: ()) -> SplitFormula {
        SplitFormula
    }

    fn called(&self) -> &'static str {
        RouteName::Split.text()
    }

    fn inverse(&self, byte: u8) -> u8 {
        Self::steps(byte).inverse
    }
}
