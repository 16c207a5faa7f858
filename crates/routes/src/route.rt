//! What a route is.
ghost use Rattle.std.specs.Prelude.{◌≡◌, ℕ, ◌≤◌, List, IfOk};
ghost use Rattle.routes.specs.Routes.{cap, Made, Asked};

use crate::refusal::Refusal;

/// The most that a tally comes to, 2^40.
pub const CAP: u64 = 1 << 40;

/// A way to invert sixteen bytes at a time, known by its tally: the number of times that it was asked, at most 2^40.
pub trait Route: Drop {
    /// What is to be chosen besides the starting tally.
    type Choice;

    ghost tally: { Self → ℕ };

    ghost name: { Self → List ℕ };

    ghost called: { Self.Choice → List ℕ };

    /// A route with this tally, carried over from its meter. Refused: a starting tally above 2^40.
    fn new(choice: Self::Choice, start: u64) -> Result<Self, Refusal>
        ensures made { Made tally start result }
        ensures named { IfOk result (λ route. name route ≡ called choice) };

    /// Replaces each byte by its inverse, 00 by 00, and counts one. At a tally of 2^40 it gives sixteen bytes 00 and counts none.
    fn invert(&mut self, bytes: &mut [u8; 16])
        ensures asked { Asked bytes.old bytes.new (tally self.old) (tally self.new) }
        ensures named { name self.new ≡ name self.old };

    /// How often it was asked.
    fn tally(&self) -> u64
        ensures { result ≡ tally self.now };

    /// Its name for people.
    fn name(&self) -> &str
        ensures { result.now ≡ name self.now };

    ghost capped: { (x : Self) → tally x ≤ cap };
}
