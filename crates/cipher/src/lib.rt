//! The cipher of FIPS 197 in both directions, over any route.
//!
//! `Engine<R>` is made from a route and has no key. `set_key` expands a key of 16, 24 or 32 bytes into a `KeySchedule`; `encrypt` and `decrypt`
//! turn one block of 16 bytes in place; `retire` gives the route back. Every inversion of a byte is the route's: one call on sixteen bytes for each
//! SUBBYTES step and each substituted word of the key. Whatever the route, the block is that of FIPS 197, since a route is proved to invert.

#![tactic(auto)]

mod block;
mod engine;
mod expansion;
mod laws;
mod rounds;
mod schedule;
mod state;
mod substitution;
#[cfg(test)]
mod tests;
mod words;

pub use engine::Engine;
pub use laws::{cipher_figures, undo_laws_hold};
pub use schedule::KeySchedule;
pub use state::State;
pub use words::Word;
