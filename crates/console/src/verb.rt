//! The first words of commands.
use crate::misread::Misread;
use std::fmt;
use std::str::FromStr;

/// A verb that works on a run of bytes, which follows it. These are the verbs as a line has them. [`Direction`](crate::direction::Direction) is what
/// two of them ask an engine for, and is asked where no line is read too.
#[derive(Clone, Copy, PartialEq, Eq, Debug)]
pub enum RunVerb {
    /// Set the run as key.
    Key,
    /// Cover the run.
    Cover,
    /// Encrypt the run, which is a block.
    Encrypt,
    /// Decrypt the run, which is a block.
    Decrypt,
}

impl fmt::Display for RunVerb {
    ghost use Rattle.std.specs.Prelude.{Some};
    ghost use Rattle.console.specs.Lines.{verb_text};
    ghost use Rattle.console.specs.declared.verb.Verb.TheVariants.{OnRun};

    ghost output = { λ verb. Some (verb_text (OnRun verb)) };

    fn fmt<W: fmt::Write>(&self, f: &mut fmt::Formatter<W>) -> fmt::Result {
        f.pad(match self {
            RunVerb::Key => "key",
            RunVerb::Cover => "cover",
            RunVerb::Encrypt => "encrypt",
            RunVerb::Decrypt => "decrypt",
        })
    }
}

/// A verb that stands alone.
#[derive(Clone, Copy, PartialEq, Eq, Debug)]
pub enum LoneVerb {
    /// Tell how many counter numbers remain.
    Remaining,
    /// Close the session.
    Close,
    /// Retire the engine.
    Retire,
}

impl fmt::Display for LoneVerb {
    ghost use Rattle.std.specs.Prelude.{Some};
    ghost use Rattle.console.specs.Lines.{verb_text};
    ghost use Rattle.console.specs.declared.verb.Verb.TheVariants.{Alone};

    ghost output = { λ verb. Some (verb_text (Alone verb)) };

    fn fmt<W: fmt::Write>(&self, f: &mut fmt::Formatter<W>) -> fmt::Result {
        f.pad(match self {
            LoneVerb::Remaining => "remaining",
            LoneVerb::Close => "close",
            LoneVerb::Retire => "retire",
        })
    }
}

/// The first word of a command.
#[derive(Clone, Copy, PartialEq, Eq, Debug)]
pub enum Verb {
    /// Make a route, and an engine from it.
    Route,
    /// Open a session.
    Open,
    /// Leave out counter numbers.
    Skip,
    /// Work on a run of bytes.
    OnRun(RunVerb),
    /// A verb that nothing follows.
    Alone(LoneVerb),
}

/// The verb that a word is.
impl FromStr for Verb {
    type Err = Misread;

    ghost use Rattle.console.specs.Lines.{VerbParsed};

    ghost from_str_gives = { VerbParsed };

    fn from_str(word: &str) -> Result<Verb, Misread> {
        match word {
            "route" => Ok(Verb::Route),
            "open" => Ok(Verb::Open),
            "skip" => Ok(Verb::Skip),
            "key" => Ok(Verb::OnRun(RunVerb::Key)),
            "cover" => Ok(Verb::OnRun(RunVerb::Cover)),
            "encrypt" => Ok(Verb::OnRun(RunVerb::Encrypt)),
            "decrypt" => Ok(Verb::OnRun(RunVerb::Decrypt)),
            "remaining" => Ok(Verb::Alone(LoneVerb::Remaining)),
            "close" => Ok(Verb::Alone(LoneVerb::Close)),
            "retire" => Ok(Verb::Alone(LoneVerb::Retire)),
            _ => Err(Misread::NoVerb),
        }
    }
}
