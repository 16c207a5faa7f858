//! Why a call was refused.
ghost use Rattle.std.specs.Prelude.{◌≡◌};
ghost use Rattle.routes.specs.Refusals.{number, value};

use std::error::Error;
use std::fmt;

/// A refused call: what was wrong, with the value that broke a bound. A refused call alters nothing.
#[derive(Clone, Copy, PartialEq, Eq, Debug)]
pub enum Refusal {
    /// A key of this many bytes, which is not 16, 24 or 32.
    KeyLength(u64),
    /// A block or a run was to be worked on, and no key is set.
    NoKey,
    /// A block of this many bytes, which is not 16.
    BlockLength(u64),
    /// A run of this many bytes, above 65,536.
    RunLength(u64),
    /// More counter numbers were wanted than these, which remain.
    Remaining(u64),
    /// More inversions were wanted than these, which are left until the tally is 2^40.
    Inversions(u64),
    /// A prefix of this many bytes, which is not 12.
    PrefixLength(u64),
    /// An opening number above 2^32.
    OpeningNumber(u64),
    /// A starting tally above 2^40.
    StartingTally(u64),
}

impl Refusal {
    /// Which refusal this is, from 1 to 9: scripts and C programs are told it by this number.
    pub fn number(self) -> u64
        ensures { result ≡ number self }
    {
        match self {
            Refusal::KeyLength(_) => 1,
            Refusal::NoKey => 2,
            Refusal::BlockLength(_) => 3,
            Refusal::RunLength(_) => 4,
            Refusal::Remaining(_) => 5,
            Refusal::Inversions(_) => 6,
            Refusal::PrefixLength(_) => 7,
            Refusal::OpeningNumber(_) => 8,
            Refusal::StartingTally(_) => 9,
        }
    }

    /// The value that goes with it, or 0 where none does.
    pub fn value(self) -> u64
        ensures { result ≡ value self }
    {
        match self {
            Refusal::NoKey => 0,
            Refusal::KeyLength(n)
            | Refusal::BlockLength(n)
            | Refusal::RunLength(n)
            | Refusal::Remaining(n)
            | Refusal::Inversions(n)
            | Refusal::PrefixLength(n)
            | Refusal::OpeningNumber(n)
            | Refusal::StartingTally(n) => n,
        }
    }
}

/// What was expected, for people.
#[derive(Clone, Copy)]
struct Expected(Refusal);

impl fmt::Display for Expected {
    fn fmt<W: fmt::Write>(&self, f: &mut fmt::Formatter<W>) -> fmt::Result {
        match self.0 {
            Refusal::KeyLength(_) => write!(f, "a key of 16, 24 or 32 bytes was expected"),
            Refusal::NoKey => write!(f, "a key has to be set first"),
            Refusal::BlockLength(_) => write!(f, "a block of 16 bytes was expected"),
            Refusal::RunLength(_) => write!(f, "a run of at most 65536 bytes was expected"),
            Refusal::Remaining(_) => write!(f, "no more counter numbers than that remain"),
            Refusal::Inversions(_) => write!(f, "no more inversions than that are left"),
            Refusal::PrefixLength(_) => write!(f, "a prefix of 12 bytes was expected"),
            Refusal::OpeningNumber(_) => write!(
                f,
                "an opening number of at most 4294967296 was expected"
            ),
            Refusal::StartingTally(_) => write!(
                f,
                "a starting tally of at most 1099511627776 was expected"
            ),
        }
    }
}

impl fmt::Display for Refusal {
    fn fmt<W: fmt::Write>(&self, f: &mut fmt::Formatter<W>) -> fmt::Result {
        let number = self.number();
        let value = self.value();
        write!(f, "refused {number} {value}: {}", Expected(*self))
    }
}

impl Error for Refusal {}
