//! The route by powers.
ghost use Rattle.std.specs.Prelude.{◌≡◌};
ghost use Rattle.fields.specs.Bytes.{byte};
ghost use Rattle.routes.specs.Formulas.{byte_power, twisted};
ghost use Rattle.routes.specs.Inverting.{Inverts};
ghost use Rattle.routes.specs.Names.{name_text};
ghost use Rattle.routes.specs.declared.name.RouteName.TheVariants.{Power};

use crate::additive_power::AdditivePower;
use crate::formula::Formula;
use crate::metered::Metered;
use crate::name::RouteName;
use crate::select::or_else;
use fields::{Byte, Field};

/// With s = a^84 and r = a·s·s + s, the inverse is r, or s where r is 00.
#[derive(Clone, Copy)]
pub struct PowerFormula;

/// The route by that formula.
pub type Power = Metered<PowerFormula>;

/// What the formula goes through.
#[derive(Clone, Copy)]
pub struct PowerSteps {
    /// a^84.
    pub s: Byte,
    /// a·s·s + s.
    pub r: Byte,
    /// The inverse of a.
    pub inverse: u8,
}

/// a^84, by three powers that are additive and two products.
fn eighty_fourth(a: Byte) -> Byte
    ensures { result ≡ byte_power 84 a }
{
    let a4 = AdditivePower::Fourth.of(a);
    let a16 = AdditivePower::Sixteenth.of(a);
    let a64 = AdditivePower::SixtyFourth.of(a);
    let a20 = a4.product(a16);
    a20.product(a64)
}

impl PowerFormula {
    /// The formula step by step.
    pub fn steps(a: u8) -> PowerSteps
        ensures s { result.s ≡ byte_power 84 (byte a) }
        ensures r { result.r ≡ twisted (byte a) result.s }
        ensures inverse { Inverts a result.inverse }
    {
        let element = Byte::from(a);
        let s = eighty_fourth(element);
        // Both products have s first: what it is times the powers of x is worked out once.
        let r = s.product(s.product(element)).sum(s);
        PowerSteps {
            s,
            r,
            inverse: or_else(u8::from(r), u8::from(s)),
        }
    }
}

impl Formula for PowerFormula {
    type Choice = ();

    ghost called = { λ _. name_text Power };

    ghost chosen = { λ _. name_text Power };

    fn new(_choice: ()) -> PowerFormula {
        PowerFormula
    }

    fn called(&self) -> &'static str {
        RouteName::Power.text()
    }

    fn inverse(&self, byte: u8) -> u8 {
        Self::steps(byte).inverse
    }
}
