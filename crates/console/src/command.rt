//! A line of a script as a command.
ghost use Rattle.std.specs.Prelude.{◌≡◌, IfOk};
ghost use Rattle.console.specs.Lines.{both, RouteRead, OpenRead, SkipRead, RunRead, ArgumentsRead, LineRead, alone_of, AtRead};
ghost use Rattle.console.specs.declared.command.Command.TheVariants.{OpenSession};

use crate::hex;
use crate::misread::Misread;
use crate::numeral::number;
use crate::verb::{LoneVerb, RunVerb, Verb};
use crate::word::first_word;
use routes::RouteName;
use std::alloc::{AllocError, Global};

/// What a script asks for.
#[derive(Drop)]
pub enum Command {
    /// Make a route with a starting tally, and an engine from it.
    MakeRoute(RouteName, u64),
    /// Open a session under a prefix, at a number or at 0.
    OpenSession(Vec<u8>, Option<u64>),
    /// Leave out counter numbers.
    SkipNumbers(u64),
    /// Do what the verb says with a run of bytes: set it as key, cover it, encrypt or decrypt it.
    WithRun(RunVerb, Vec<u8>),
    /// Ask how many counter numbers remain, close the session, or retire the engine.
    Plainly(LoneVerb),
}

/// The command of a verb that stands alone, or none where something follows it.
fn alone(verb: LoneVerb, rest: &str) -> Option<Command>
    ensures { result ≡ alone_of verb rest.now }
{
    rest.is_empty().then_some(Command::Plainly(verb))
}

/// What follows `route`: a name and a number.
fn route(rest: &str) -> Option<Command>
    ensures { RouteRead rest.now result }
{
    let (name, start) = first_word(rest);
    // Both are read before either `?`: the promise tells what each of them is.
    let (name, start) = (name.parse::<RouteName>().ok(), number(start));
    Some(Command::MakeRoute(name?, start?))
}

/// An opening number, where there is one; or none where it is not written as a number: two things that may be wanting, so two Options.
fn opening(text: &str) -> Option<Option<u64>>
    ensures { AtRead text.now result }
{
    if text.is_empty() {
        return Some(None);
    }
    number(text).map(Some)
}

/// The command of a prefix and perhaps a number, where both could be read.
fn opened(prefix: Option<Vec<u8>>, at: Option<Option<u64>>) -> Option<Command>
    ensures { result ≡ both OpenSession prefix at }
{
    Some(Command::OpenSession(prefix?, at?))
}

/// What follows `open`: a prefix, and perhaps a number.
fn open(heap: Global, rest: &str) -> Result<Option<Command>, AllocError>
    ensures { IfOk result (λ o. OpenRead rest.now o) }
{
    let (prefix, at) = first_word(rest);
    Ok(opened(hex::run(heap, prefix)?, opening(at)))
}

/// What follows `skip`: a number.
fn skip(rest: &str) -> Option<Command>
    ensures { SkipRead rest.now result }
{
    number(rest).map(Command::SkipNumbers)
}

/// What follows a verb that works on a run of bytes: that run.
fn on_run(heap: Global, verb: RunVerb, rest: &str) -> Result<Option<Command>, AllocError>
    ensures { IfOk result (λ o. RunRead verb rest.now o) }
{
    Ok(hex::run(heap, rest)?.map(|run| Command::WithRun(verb, run)))
}

/// The command of a verb and what follows it, or none where that is not written as it has to be.
fn arguments(heap: Global, verb: Verb, rest: &str) -> Result<Option<Command>, AllocError>
    ensures { IfOk result (λ o. ArgumentsRead verb rest.now o) }
{
    // A match and no trait of verbs: no verb is added from outside, and what follows one differs from kind to kind.
    match verb {
        Verb::Route => Ok(route(rest)),
        Verb::Open => open(heap, rest),
        Verb::Skip => Ok(skip(rest)),
        Verb::OnRun(verb) => on_run(heap, verb, rest),
        Verb::Alone(verb) => Ok(alone(verb, rest)),
    }
}

/// The command of a line of a script, or none where the line is blank or begins with `#`.
pub fn read(heap: Global, line: &str) -> Result<Option<Command>, Misread>
    ensures { LineRead line.now result }
{
    let (word, rest) = first_word(line);
    if word.is_empty() || word.starts_with('#') {
        return Ok(None);
    }
    let verb: Verb = word.parse()?;
    let Some(command) = arguments(heap, verb, rest)? else {
        return Err(Misread::Misfit(verb));
    };
    Ok(Some(command))
}
