//! One end of an exchange: an engine and a session from a set-up, a list of calls, and what is left at the end.
ghost use Rattle.sessions.specs.Exchanges.{answers_given, agreed, calls_left, RunThrough, Ended};

use crate::agreement::Agreement;
use crate::call::Answered;
use crate::carry::carry_out;
use crate::ends::error::ExchangeError;
use crate::session::Session;
use cipher::Engine;
use routes::{Refusal, Route};

/// What an end has to show when it has closed its session and retired its engine.
#[derive(Drop)]
pub struct End {
    /// The calls, with their runs as this end left them, each with its answer.
    pub answered: Vec<Answered>,
    /// The number at which the session closed.
    pub closed: u64,
    /// The tally of the route.
    pub tally: u64,
}

/// Sets the key, opens a session, carries out the calls and closes the session, and gives the number at which it closed.
fn run_through<R: Route>(
    engine: &mut Engine<R>,
    agreement: Agreement,
    answered: &mut Vec<Answered>,
) -> Result<u64, Refusal>
    ensures { RunThrough (agreed agreement.entry (R.Route.tally engine.old.route)) (calls_left answered.old.items) (answers_given answered.new.items) (calls_left answered.new.items) (R.Route.tally engine.new.route) result }
{
    engine.set_key(agreement.key)?;
    let mut session = Session::open(agreement.prefix, agreement.at)?;
    carry_out(&mut session, engine, answered);
    Ok(session.close())
}

/// Makes an engine over a route, runs a session through, and retires the engine, also where the set-up is refused. Each call stands in the list with no
/// answer yet, so that no second list is needed.
pub(crate) fn run_end<R: Route>(
    route: R,
    agreement: Agreement,
    mut answered: Vec<Answered>,
) -> Result<End, ExchangeError>
    ensures { Ended (agreed agreement.entry (R.Route.tally route)) (calls_left answered.items) result }
{
    let mut engine = Engine::new(route);
    let ran = run_through(&mut engine, agreement, &mut answered);
    let tally = engine.retire().tally();
    let closed = ran?;
    Ok(End {
        answered,
        closed,
        tally,
    })
}
