//! The exchange of two ends: what a transmitter covers, a gateway uncovers.
ghost use Rattle.sessions.specs.Exchanges.{agreed, Exchanged};
ghost use Rattle.sessions.specs.Laws.{SessionLaws};

use crate::agreement::Agreement;
use crate::call::SessionCall;
use crate::ends::copies::{copies_of, unanswered};
use crate::ends::end::{End, run_end};
use crate::ends::error::ExchangeError;
use routes::Route;
use std::alloc::Global;

mod copies;
pub mod end;
pub mod error;

/// What both ends have to show after an exchange.
#[derive(Drop)]
pub struct BothEnds {
    /// The end that was passed the calls.
    pub transmitter: End,
    /// The end that was fed what the transmitter left.
    pub gateway: End,
}

/// Carries a list of calls out at a transmitter, feeds what it left to a gateway, and gives back what both ends have to show. The ends agree on key,
/// prefix, opening number (0 where none is given) and starting tally; each has a route of its own. Every session is closed and every engine is
/// retired, also where the set-up is refused and where memory runs short.
#[tactic(auto, using(crate::proofs::SessionLaws::session_laws))]
pub fn exchange<A: Route, B: Route>(
    heap: Global,
    transmitter: A::Choice,
    gateway: B::Choice,
    agreement: Agreement,
    calls: Vec<SessionCall>,
) -> Result<BothEnds, ExchangeError>
    ensures ends { Exchanged (agreed agreement.entry agreement.entry.start) calls.items result }
    ensures laws { SessionLaws }
{
    // Both choices are used up before either refusal is told: they may be values that cannot be let go.
    let near = A::new(transmitter, agreement.start);
    let far = B::new(gateway, agreement.start);
    let near = near?;
    let far = far?;
    let passed = unanswered(heap, calls)?;
    let transmitter = run_end(near, agreement, passed)?;
    let sent = copies_of(heap, &transmitter.answered)?;
    let gateway = run_end(far, agreement, sent)?;
    Ok(BothEnds {
        transmitter,
        gateway,
    })
}
