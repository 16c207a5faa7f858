//! A client that uses a session as it is meant to be used. Each function is one edit away from a misuse that does not compile.
ghost use Rattle.sessions.specs.Clients.{CoveredOnce, ClosedAfter};
ghost use Rattle.sessions.specs.Reading.{Remained};

use crate::session::Session;
use crate::used::Used;
use cipher::Engine;
use routes::{Refusal, Route};

/// Covers one run, and retires the engine afterwards.
pub fn cover_then_retire<R: Route>(
    session: &mut Session,
    mut engine: Engine<R>,
    run: &mut [u8],
    pad: &mut [u8; 16],
) -> (Result<Used, Refusal>, R)
    ensures { CoveredOnce R.Route.tally engine session.old session.new run.old run.new result }
{
    let answer = session.cover(&mut engine, run, pad);
    let route = engine.retire();
    (answer, route)
}

/// Covers one run, and closes the session afterwards.
pub fn cover_then_close<R: Route>(
    mut session: Session,
    engine: &mut Engine<R>,
    run: &mut [u8],
    pad: &mut [u8; 16],
) -> (Result<Used, Refusal>, u64)
    ensures { ClosedAfter R.Route.tally engine.old engine.new session run.old run.new result }
{
    let answer = session.cover(engine, run, pad);
    let end = session.close();
    (answer, end)
}

/// Asks how many numbers remain, and closes the session afterwards.
pub fn remaining_at_close(session: Session) -> u64
    ensures { Remained session result }
{
    let left = session.remaining();
    let _next = session.close();
    left
}
