//! A route that is chosen by name at run time.
ghost use Rattle.std.specs.Prelude.{◌≡◌};
ghost use Rattle.routes.specs.AnyRoutes.{formula_name};
ghost use Rattle.routes.specs.Names.{name_text};

use crate::any_formula::AnyFormula;
use crate::field::FieldFormula;
use crate::formula::Formula;
use crate::metered::Metered;
use crate::name::RouteName;
use crate::power::PowerFormula;
use crate::split::SplitFormula;
use crate::table::TableFormula;

/// One of the five routes.
pub type AnyRoute = Metered<AnyFormula>;

/// The formula of a name. An enum and no `dyn`: the five are all there are, and a `dyn` may not be handed out by a function that makes it.
impl Formula for AnyFormula {
    type Choice = RouteName;

    ghost called = { formula_name };

    ghost chosen = { name_text };

    fn new(choice: RouteName) -> AnyFormula {
        match choice {
            RouteName::Power => AnyFormula::ByPower(PowerFormula),
            RouteName::Split => AnyFormula::BySplit(SplitFormula),
            RouteName::Table => AnyFormula::ByTable(TableFormula),
            RouteName::NibblePair => AnyFormula::ByPair(FieldFormula::new(())),
            RouteName::BitTower => AnyFormula::ByTower(FieldFormula::new(())),
        }
    }

    fn called(&self) -> &'static str {
        match self {
            AnyFormula::ByPower(formula) => formula.called(),
            AnyFormula::BySplit(formula) => formula.called(),
            AnyFormula::ByTable(formula) => formula.called(),
            AnyFormula::ByPair(formula) => formula.called(),
            AnyFormula::ByTower(formula) => formula.called(),
        }
    }

    fn inverse(&self, byte: u8) -> u8 {
        match self {
            AnyFormula::ByPower(formula) => formula.inverse(byte),
            AnyFormula::BySplit(formula) => formula.inverse(byte),
            AnyFormula::ByTable(formula) => formula.inverse(byte),
            AnyFormula::ByPair(formula) => formula.inverse(byte),
            AnyFormula::ByTower(formula) => formula.inverse(byte),
        }
    }

    fn invert_all(&self, bytes: &mut [u8; 16]) {
        match self {
            AnyFormula::ByPower(formula) => formula.invert_all(bytes),
            AnyFormula::BySplit(formula) => formula.invert_all(bytes),
            AnyFormula::ByTable(formula) => formula.invert_all(bytes),
            AnyFormula::ByPair(formula) => formula.invert_all(bytes),
            AnyFormula::ByTower(formula) => formula.invert_all(bytes),
        }
    }
}
