//! Counter sessions over the cipher of FIPS 197: what their calls promise, and the laws that follow for every history of calls.
//!
//! A `Session` has a prefix of twelve bytes and the number of its next counter block. `cover` adds key stream to a run of bytes in place, and gives
//! it back where the other end covers it again at the same numbers; `skip` leaves numbers out; `remaining` tells how many are left; `close` ends the
//! session and tells where the next one under its prefix has to open. A session is neither copied nor let go. `exchange` carries a list of calls out
//! at a transmitter and feeds what it left to a gateway; its contract says what the laws come to for these two ends.

#![tactic(auto)]

ghost use Rattle.std.specs.Prelude.{◌≡◌, true};
ghost use Rattle.sessions.specs.Laws.{SessionLaws};

mod agreement;
mod call;
mod carry;
mod client;
mod ends;
mod figures;
mod pad;
mod session;
mod stream;
mod used;

pub use agreement::Agreement;
pub use call::{Answered, Given, SessionAnswer, SessionCall};
pub use client::{cover_then_close, cover_then_retire, remaining_at_close};
pub use ends::end::End;
pub use ends::error::ExchangeError;
pub use ends::{BothEnds, exchange};
pub use figures::session_figures;
pub use session::{COUNTERS, Session};
pub use used::Used;

/// The laws of counter sessions hold: of every session, of every two ends, of every chain, over every route.
#[tactic(auto, using(crate::proofs::SessionLaws::session_laws))]
pub fn session_laws_hold() -> bool
    ensures always { result ≡ true }
    ensures laws { SessionLaws }
{
    true
}
