//! A script from standard input: a command a line, and an answer a line.
ghost use Rattle.sessions.specs.Laws.{SessionLaws};

use crate::answer::Failure;
use crate::command::{Command, read};
use crate::desk::Desk;
use std::io;

/// Carries out a command and prints its answer, or that it was refused.
fn answer(rt: &impl Print, desk: &mut Desk, command: Command) -> anyhow::Result<()> {
    match desk.carry_out(command) {
        Ok(answer) => rt.println(answer)?,
        Err(Failure::OutOfPlace(unfit)) => return Err(unfit.into()),
        Err(refused) => rt.println(refused)?,
    }
    Ok(())
}

/// Reads a line and does what it says.
fn follow(
    rt: &(impl Print + AllocGlobal),
    desk: &mut Desk,
    line: io::Result<String>,
) -> anyhow::Result<()> {
    let line = line?;
    match read(rt.alloc(), line.as_str())? {
        Some(command) => answer(rt, desk, command),
        None => Ok(()),
    }
}

/// Follows a script to its end, or to the first line that can't be read or has nothing to work on: its number, and what was expected.
fn follow_all(
    rt: &(impl Input + Print + AllocGlobal),
    desk: &mut Desk,
) -> Result<(), (u64, anyhow::Error)> {
    for (number, line) in (1u64..).zip(rt.lines(rt.alloc())) {
        follow(rt, desk, line).map_err(|error| (number, error))?;
    }
    Ok(())
}

/// Closes the session and retires the engine, and says on standard error at which number to go on, where a session was open.
fn put_away(rt: &impl Eprint, desk: Desk) -> io::Result<()> {
    let (next, _) = desk.clear();
    if let Some(next) = next {
        eprintln!(rt; "the session was closed; go on at {next}")?;
    }
    Ok(())
}

/// Follows a script to its end, or to the first line that can't be read or has nothing to work on. That line is named on standard error, by its number,
/// with what was expected. Whatever is still open is closed and retired.
#[tactic(auto, using(sessions::proofs::SessionLaws::session_laws))]
pub fn run_script(rt: &(impl Input + Print + Eprint + AllocGlobal)) -> anyhow::Result<()>
    ensures { SessionLaws }
{
    let mut desk = Desk::empty();
    let ended = follow_all(rt, &mut desk);
    put_away(rt, desk)?;
    if let Err((number, error)) = ended {
        eprintln!(rt; "error: {number}: {error}")?;
        return Err(error);
    }
    Ok(())
}
