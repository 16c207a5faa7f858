//! The route of a formula: the formula with a tally.
ghost use Rattle.std.specs.Prelude.{◌≤◌};

pub mod route;

/// A formula with a tally, which is never above 2^40.
#[derive(Drop)]
pub struct Metered<F> {
    formula: F,
    tally: u64,
    ghost capped: { tally ≤ 1099511627776 },
}
