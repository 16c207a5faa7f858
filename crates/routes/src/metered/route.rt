//! Any formula makes a route.
ghost use Rattle.std.specs.Prelude.{◌≡◌, ℕ, ◌≤◌};
ghost use Rattle.std.proofs.Common.{rules, arith};

use crate::formula::Formula;
use crate::metered::Metered;
use crate::refusal::Refusal;
use crate::route::{CAP, Route};

impl<F: Formula> Route for Metered<F> {
    type Choice = F::Choice;

    ghost tally = { λ m. m.tally };

    ghost name = { λ m. F.Formula.called m.formula };

    ghost called = { F.Formula.chosen };

    ghost capped = { first_of (Prim.search rules, Prim.grind (arith, Self.row.coded.inj)) };

    fn new(choice: F::Choice, start: u64) -> Result<Metered<F>, Refusal> {
        if start > CAP {
            return Err(Refusal::StartingTally(start));
        }
        Ok(Metered {
            formula: F::new(choice),
            tally: start,
        })
    }

    fn invert(&mut self, bytes: &mut [u8; 16]) {
        if self.tally < CAP {
            self.formula.invert_all(bytes);
            self.tally += 1;
        } else {
            *bytes = [0; 16];
        }
    }

    fn tally(&self) -> u64 {
        self.tally
    }

    fn name(&self) -> &str {
        self.formula.called()
    }
}
