//! The commands that need a session and no engine. They are given the session's place alone, so an engine stays as it is.
ghost use Rattle.std.specs.Prelude.{◌≡◌, None};
ghost use Rattle.console.specs.Desks.{SessionOpened, NumbersSkipped, RemainingAsked, SessionClosed};

use crate::answer::{Answer, Failure, Unfit};
use sessions::Session;

/// Opens a session, where there is none.
pub(super) fn open(
    session: &mut Option<Session>,
    prefix: &[u8],
    at: Option<u64>,
) -> Result<Answer, Failure>
    ensures { SessionOpened session.old prefix.now at session.new result }
{
    if session.is_some() {
        return Err(Unfit::SessionThere.into());
    }
    // `replace` and no assignment: an assignment drops what stood there, and a session can't be dropped. Nothing stands there, so the other arm is never run.
    match session.replace(Session::open(prefix, at)?) {
        None => Ok(Answer::Taken),
        Some(_before) => unreachable!(),
    }
}

/// Leaves out counter numbers, and tells what remains.
pub(super) fn skip(session: &mut Option<Session>, n: u64) -> Result<Answer, Failure>
    ensures { NumbersSkipped session.old n session.new result }
{
    let session = session.as_mut().ok_or(Unfit::SessionMissing)?;
    Ok(Answer::Number(session.skip(n)?))
}

/// Tells what remains.
pub(super) fn remaining(session: &Option<Session>) -> Result<Answer, Failure>
    ensures { RemainingAsked session.now session.now result }
{
    let session = session.as_ref().ok_or(Unfit::SessionMissing)?;
    Ok(Answer::Number(session.remaining()))
}

/// Closes the session, and tells its next number.
pub(super) fn close(session: &mut Option<Session>) -> Result<Answer, Failure>
    ensures told { SessionClosed session.old result }
    ensures gone { session.new ≡ None }
{
    let session = session.take().ok_or(Unfit::SessionMissing)?;
    Ok(Answer::Number(session.close()))
}
