//! Lists of calls that are yet to be answered: those that are passed, and copies to be fed to the other end.
ghost use Rattle.std.specs.Prelude.{◌≡◌, map, IfOk};
ghost use Rattle.sessions.specs.Exchanges.{call_in, calls_left};

use crate::call::{Answered, SessionCall, UNANSWERED};
use std::alloc::{AllocError, Global};

/// The calls, with no answer yet.
pub(crate) fn unanswered(heap: Global, calls: Vec<SessionCall>) -> Result<Vec<Answered>, AllocError>
    ensures { IfOk result (λ v. calls_left v.items ≡ calls.items) }
{
    let mut noted = Vec::with_capacity(heap, calls.len())?;
    for call in calls {
        noted.push(Answered {
            call,
            answer: UNANSWERED,
        })?;
    }
    Ok(noted)
}

/// A copy of a call.
#[tactic(auto, using(crate::proofs::Exchanges::cloned))]
fn copy_of(call: &SessionCall) -> Result<SessionCall, AllocError>
    ensures { IfOk result (λ c. call_in c ≡ call_in call.now) }
{
    call.clone()
}

/// Copies of the calls as one end left them, with no answer yet.
pub(crate) fn copies_of(heap: Global, answered: &[Answered]) -> Result<Vec<Answered>, AllocError>
    ensures { IfOk result (λ v. map call_in (calls_left v.items) ≡ map call_in (calls_left answered.now)) }
{
    let mut copies = Vec::with_capacity(heap, answered.len())?;
    // Tried as `.map(..).try_collect(heap)`: what it collects stayed open, so the proof did not close.
    for one in answered {
        let call = copy_of(&one.call)?;
        copies.push(Answered {
            call,
            answer: UNANSWERED,
        })?;
    }
    Ok(copies)
}
