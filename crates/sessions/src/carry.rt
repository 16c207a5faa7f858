//! Carrying out calls of a session that are given as values.
ghost use Rattle.std.specs.Prelude.{◌≡◌, replicate};
ghost use Rattle.sessions.specs.Exchanges.{answers_given, calls_left, CarriedOne, Carried};
ghost use Rattle.sessions.specs.Reading.{held_by};

use crate::call::{Answered, Given, SessionAnswer, SessionCall};
use crate::session::Session;
use cipher::Engine;
use routes::Route;

/// Carries out one call. A run that is covered is left in the call.
fn carry_out_one<R: Route>(
    session: &mut Session,
    engine: &mut Engine<R>,
    call: &mut SessionCall,
    pad: &mut [u8; 16],
) -> SessionAnswer
    ensures { CarriedOne (held_by R.Route.tally engine.old session.old) call.old result call.new (held_by R.Route.tally engine.new session.new) }
{
    match call {
        SessionCall::Cover(run) => session
            .cover(engine, run.as_mut_slice(), pad)
            .map(Given::Used),
        SessionCall::Skip(n) => session.skip(*n).map(Given::Left),
        SessionCall::Remaining => Ok(Given::Left(session.remaining())),
    }
}

/// Carries out a list of calls in place, one after the other, and notes each one's answer beside it.
pub(crate) fn carry_out<R: Route>(
    session: &mut Session,
    engine: &mut Engine<R>,
    answered: &mut Vec<Answered>,
)
    ensures { Carried (held_by R.Route.tally engine.old session.old) (calls_left answered.old.items) (answers_given answered.new.items) (calls_left answered.new.items) (held_by R.Route.tally engine.new session.new) }
{
    // In place: memory is asked for before anything is done, so here nothing can fail halfway.
    let mut pad = [0; 16];
    for one in answered.iter_mut() {
        one.answer = carry_out_one(session, engine, &mut one.call, &mut pad);
    }
}
