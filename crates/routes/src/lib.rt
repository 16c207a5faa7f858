//! Routes: ways to invert sixteen bytes at a time in the byte field of AES, each with a tally.

#![tactic(auto)]

mod additive_power;
mod agreement;
mod any_formula;
mod any_route;
mod field;
mod formula;
mod metered;
mod name;
mod nibble_pair;
mod packed_tower;
mod power;
mod refusal;
mod route;
mod select;
mod split;
mod table;
#[cfg(test)]
mod tests;

pub use agreement::{formulas_agree, route_figures};
pub use any_formula::AnyFormula;
pub use any_route::AnyRoute;
pub use field::{ByBitTower, ByNibblePair, FieldFormula, FieldSteps, NamedField, field_steps};
pub use formula::Formula;
pub use metered::Metered;
pub use name::{RouteName, UnknownRoute};
pub use power::{Power, PowerFormula, PowerSteps};
pub use refusal::Refusal;
pub use route::{CAP, Route};
pub use split::{Split, SplitFormula, SplitSteps};
pub use table::{Table, TableFormula, TableSteps};
