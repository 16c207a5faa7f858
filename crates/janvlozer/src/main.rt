//! The program: how a byte is inverted in three fields and by five routes, step by step.

#![tactic(auto)]

mod command;
mod show;

use command::Misuse;
use std::env;
use std::process::ExitCode;

/// Says on standard error, in one line, why a command failed.
fn report(rt: &HostRuntime, res: anyhow::Result<()>) -> anyhow::Result<()> {
    if let Err(error) = &res {
        eprintln!(rt; "janvlozer: {error}")?;
    }
    res
}

/// Does what the words ask for. A misuse, or a word that is no text, is one line on standard error.
fn run(rt: &HostRuntime) -> anyhow::Result<()> {
    let args = match env::args(rt) {
        Ok(args) => args,
        Err(error) => {
            eprintln!(rt; "janvlozer: {}; got {error}", Misuse::Words)?;
            return Err(error.into());
        }
    };
    let words: Vec<String> = args.skip(1).collect(rt.alloc())?;
    match command::parse(&words) {
        Ok(command) => report(rt, show::show(rt, command, &words)),
        Err(misuse) => {
            eprintln!(rt; "janvlozer: {misuse}; got {words:?}")?;
            Err(misuse.into())
        }
    }
}

/// Status 1 where the words could not be done. What was wrong is told by then, but where memory ran short while the words were read.
fn main(rt: HostRuntime) -> ExitCode {
    match run(&rt) {
        Ok(()) => ExitCode::SUCCESS,
        Err(_) => ExitCode::FAILURE,
    }
}
