//! All formulas give the same inverse.
ghost use Rattle.std.specs.Prelude.{◌≡◌, true, ◌++◌, length};
ghost use Rattle.fields.specs.Figures.{field_figures, ComeOut};
ghost use Rattle.routes.specs.Inverting.{Determined};
ghost use Rattle.routes.specs.Figures.{route_figures};

use crate::any_formula::AnyFormula;
use crate::formula::Formula;
use crate::name::RouteName;

/// Whether the five formulas give the same inverse of a byte. They always do, since what it is to invert a byte determines the answer.
pub fn formulas_agree(byte: u8) -> bool
    ensures agree { result ≡ true }
    ensures determined { Determined }
{
    // Each formula is asked once: the other four are compared with the first.
    let inverse = AnyFormula::new(RouteName::ALL[0]).inverse(byte);
    RouteName::ALL[1..]
        .iter()
        .all(|name| AnyFormula::new(*name).inverse(byte) == inverse)
}

/// How many worked figures there are of fields and routes. Its contract says that each of them comes out as published.
pub fn route_figures() -> usize
    ensures count { result ≡ length (field_figures ++ route_figures) }
    ensures hold { ComeOut (field_figures ++ route_figures) }
{
    fields::field_figures() + 1
}
