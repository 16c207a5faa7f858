//! Why a line of a script could not be read.
ghost use Rattle.std.specs.Prelude.{◌≡◌};
ghost use Rattle.console.specs.declared.misread.Misread.TheVariants.{Memory};

use crate::verb::Verb;
use std::alloc::AllocError;
use std::error::Error;
use std::fmt;

/// Why a line of a script could not be read.
#[derive(Clone, Copy, PartialEq, Eq, Debug)]
pub enum Misread {
    /// The first word is none of the verbs.
    NoVerb,
    /// What follows this verb is not written as it has to be.
    Misfit(Verb),
    /// Memory ran short.
    Memory(AllocError),
}

impl From<AllocError> for Misread {
    ghost from_gives = { λ error r. r ≡ Memory error };

    fn from(error: AllocError) -> Misread {
        Misread::Memory(error)
    }
}

impl fmt::Display for Misread {
    fn fmt<W: fmt::Write>(&self, f: &mut fmt::Formatter<W>) -> fmt::Result {
        match self {
            Misread::NoVerb => write!(
                f,
                "expected route, key, open, cover, skip, remaining, encrypt, decrypt, close or retire"
            ),
            Misread::Misfit(verb) => write!(f, "expected {}", Form(*verb)),
            Misread::Memory(error) => write!(f, "{error}"),
        }
    }
}

impl Error for Misread {}

/// How a line with a verb is written.
#[derive(Clone, Copy)]
struct Form(Verb);

impl fmt::Display for Form {
    fn fmt<W: fmt::Write>(&self, f: &mut fmt::Formatter<W>) -> fmt::Result {
        match self.0 {
            Verb::Route => write!(
                f,
                "route NAME START, with power, split, table, nibble-pair or bit-tower, and a decimal number below 2^64"
            ),
            Verb::Open => write!(
                f,
                "open PREFIX [AT], with hexadecimal digits, two a byte, and perhaps a decimal number below 2^64"
            ),
            Verb::Skip => write!(f, "skip N, with a decimal number below 2^64"),
            Verb::OnRun(verb) => write!(
                f,
                "{verb} HEX, with hexadecimal digits, two a byte, or - for no bytes"
            ),
            Verb::Alone(verb) => write!(f, "nothing after {verb}"),
        }
    }
}
