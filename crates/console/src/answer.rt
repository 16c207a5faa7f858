//! What a command is answered.
ghost use Rattle.std.specs.Prelude.{◌≡◌};
ghost use Rattle.console.specs.declared.answer.Failure.TheVariants.{Refused, OutOfPlace};

use crate::hex::Hex;
use routes::Refusal;
use sessions::Used;
use std::error::Error;
use std::fmt;

/// What a command is answered that was carried out.
#[derive(Drop)]
pub enum Answer {
    /// It gave nothing.
    Taken,
    /// It gave a number: what remains, the next number, or a tally.
    Number(u64),
    /// A run was covered: the numbers used, and the run as it is now.
    Covered(Used, Vec<u8>),
    /// A block was encrypted or decrypted: the block as it is now.
    Block(Vec<u8>),
}

impl fmt::Display for Answer {
    fn fmt<W: fmt::Write>(&self, f: &mut fmt::Formatter<W>) -> fmt::Result {
        match self {
            Answer::Taken => write!(f, "taken"),
            Answer::Number(n) => write!(f, "taken {n}"),
            Answer::Covered(used, run) => write!(f, "taken {used} {}", Hex(run.as_slice())),
            Answer::Block(block) => write!(f, "taken {}", Hex(block.as_slice())),
        }
    }
}

/// Why a command was not carried out.
#[derive(Clone, Copy, PartialEq, Eq, Debug)]
pub enum Failure {
    /// The engine, the session or a route refused it. That is an answer too, and a script goes on.
    Refused(Refusal),
    /// It has nothing to work on.
    OutOfPlace(Unfit),
}

impl From<Refusal> for Failure {
    ghost from_gives = { λ refusal r. r ≡ Refused refusal };

    fn from(refusal: Refusal) -> Failure {
        Failure::Refused(refusal)
    }
}

impl From<Unfit> for Failure {
    ghost from_gives = { λ unfit r. r ≡ OutOfPlace unfit };

    fn from(unfit: Unfit) -> Failure {
        Failure::OutOfPlace(unfit)
    }
}

impl fmt::Display for Failure {
    fn fmt<W: fmt::Write>(&self, f: &mut fmt::Formatter<W>) -> fmt::Result {
        match self {
            Failure::Refused(refusal) => {
                write!(f, "refused {} {}", refusal.number(), refusal.value())
            }
            Failure::OutOfPlace(unfit) => write!(f, "{unfit}"),
        }
    }
}

impl Error for Failure {}

/// Why a command has nothing to work on.
#[derive(Clone, Copy, PartialEq, Eq, Debug)]
pub enum Unfit {
    /// There is no engine.
    EngineMissing,
    /// There is an engine already.
    EngineThere,
    /// There is no session.
    SessionMissing,
    /// There is a session already.
    SessionThere,
}

impl fmt::Display for Unfit {
    fn fmt<W: fmt::Write>(&self, f: &mut fmt::Formatter<W>) -> fmt::Result {
        let expected = match self {
            Unfit::EngineMissing => "an engine: route NAME START makes one",
            Unfit::EngineThere => "no engine: retire the one that is there first",
            Unfit::SessionMissing => "a session: open PREFIX [AT] opens one",
            Unfit::SessionThere => "no session: close the one that is open first",
        };
        write!(f, "expected {expected}")
    }
}

impl Error for Unfit {}
