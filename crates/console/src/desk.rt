//! What a script holds between its lines, and what a command does to it.
ghost use Rattle.std.specs.Prelude.{◌≡◌, None};
ghost use Rattle.sessions.specs.Laws.{SessionLaws};
ghost use Rattle.console.specs.Desks.{RunCovered, CarriedOut, next_number, tally_of};

mod engine;
mod session;

use crate::answer::{Answer, Failure, Unfit};
use crate::command::Command;
use crate::direction::Direction;
use crate::verb::{LoneVerb, RunVerb};
use cipher::Engine;
use routes::{AnyRoute, Route};
use sessions::Session;

/// What a script holds between its lines: an engine, a session, both or neither. A session is never let go, so a desk has to be cleared.
pub struct Desk {
    engine: Option<Engine<AnyRoute>>,
    session: Option<Session>,
}

impl Desk {
    /// A desk with neither engine nor session.
    pub fn empty() -> Desk
        ensures engine { result.engine ≡ None }
        ensures session { result.session ≡ None }
    {
        Desk {
            engine: None,
            session: None,
        }
    }

    /// Carries out a command. What is refused or has nothing to work on leaves the desk as it was.
    #[tactic(auto, using(sessions::proofs::SessionLaws::session_laws))]
    pub fn carry_out(&mut self, command: Command) -> Result<Answer, Failure>
        ensures done { CarriedOut self.old command self.new result }
        ensures laws { SessionLaws }
    {
        let Desk { engine, session } = self;
        // A match and no table of functions: the commands carry values of different types.
        match command {
            Command::MakeRoute(name, start) => engine::make(engine, name, start),
            Command::OpenSession(prefix, at) => session::open(session, prefix.as_slice(), at),
            Command::SkipNumbers(n) => session::skip(session, n),
            Command::WithRun(RunVerb::Key, key) => engine::set_key(engine, key.as_slice()),
            Command::WithRun(RunVerb::Cover, run) => cover(engine, session, run),
            Command::WithRun(RunVerb::Encrypt, run) => engine::turn(
                engine,
                Direction::Encrypt,
                run,
            ),
            Command::WithRun(RunVerb::Decrypt, run) => engine::turn(
                engine,
                Direction::Decrypt,
                run,
            ),
            Command::Plainly(LoneVerb::Remaining) => session::remaining(session),
            Command::Plainly(LoneVerb::Close) => session::close(session),
            Command::Plainly(LoneVerb::Retire) => engine::retire(engine),
        }
    }

    /// Closes the session and retires the engine, where they are there, and tells the next number and the tally.
    pub fn clear(self) -> (Option<u64>, Option<u64>)
        ensures next { result.0 ≡ next_number self.session }
        ensures tally { result.1 ≡ tally_of self.engine }
    {
        let Desk { engine, session } = self;
        (
            session.map(|session| session.close()),
            engine.map(|engine| engine.retire().tally()),
        )
    }
}

/// Covers a run.
#[tactic(auto, using(crate::proofs::Desks::run_covered))]
fn cover(
    engine: &mut Option<Engine<AnyRoute>>,
    session: &mut Option<Session>,
    mut run: Vec<u8>,
) -> Result<Answer, Failure>
    ensures { RunCovered engine.old session.old run.items engine.new session.new result }
{
    let session = session.as_mut().ok_or(Unfit::SessionMissing)?;
    let engine = engine.as_mut().ok_or(Unfit::EngineMissing)?;
    let used = session.cover(engine, run.as_mut_slice(), &mut [0; 16])?;
    Ok(Answer::Covered(used, run))
}
