//! Covering one run on a route, in a session of its own.
ghost use Rattle.sessions.specs.Exchanges.{agreed};
ghost use Rattle.sessions.specs.Reading.{numbers_given};
ghost use Rattle.embed.specs.Covers.{Covered, CoverReplied};

use crate::on_route::OnRoute;
use crate::reply::Reply;
use cipher::Engine;
use routes::{Refusal, Route};
use sessions::{Agreement, Session, Used};

/// Sets the key, opens a session, covers the run and closes the session. Gives the numbers used, or what was refused first.
fn cover_through<R: Route>(
    engine: &mut Engine<R>,
    agreement: Agreement,
    run: &mut [u8],
) -> Result<Used, Refusal>
    ensures { Covered (agreed agreement.entry (R.Route.tally engine.old.route)) run.old (numbers_given result) (R.Route.tally engine.new.route) run.new }
{
    // The end of an exchange sets a key and opens and closes a session around its calls in the same way. One frame for both would take a closure over
    // session and engine, with all that a call promises of them in its clauses, and be no plainer than these four calls.
    engine.set_key(agreement.key)?;
    let mut session = Session::open(agreement.prefix, agreement.at)?;
    let mut pad = [0; 16];
    let given = session.cover(engine, run, &mut pad);
    let _next = session.close();
    given
}

/// Covers a run on a route.
fn cover_on<R: Route>(route: R, agreement: Agreement, run: &mut [u8]) -> Reply
    ensures { CoverReplied (agreed agreement.entry (R.Route.tally route)) run.old result run.new }
{
    let mut engine = Engine::new(route);
    let given = cover_through(&mut engine, agreement, run);
    let tally = engine.retire().tally();
    Reply::new(given, tally)
}

/// Covering a run as it is agreed.
#[derive(Clone, Copy)]
pub(crate) struct Cover<'a> {
    pub(crate) agreement: Agreement<'a>,
}

impl OnRoute for Cover<'_> {
    ghost replied = { λ w run reply run'. CoverReplied (agreed w.agreement w.agreement.start) run reply run' };

    fn on<R: Route<Choice = ()>>(self, run: &mut [u8]) -> Reply {
        let start = self.agreement.start;
        match R::new((), start) {
            Ok(route) => cover_on(route, self.agreement, run),
            Err(refusal) => Reply::new(Err(refusal), start),
        }
    }
}
