//! Why an exchange was not carried out.
ghost use Rattle.std.specs.Prelude.{◌≡◌};
ghost use Rattle.sessions.specs.declared.ends.error.ExchangeError.TheVariants.{NotSetUp, Memory};

use routes::Refusal;
use std::alloc::AllocError;
use std::error::Error;
use std::fmt;

/// Why an exchange was not carried out.
#[derive(Clone, Copy, PartialEq, Eq, Debug)]
pub enum ExchangeError {
    /// The set-up was refused.
    NotSetUp(Refusal),
    /// Memory ran short.
    Memory,
}

impl From<Refusal> for ExchangeError {
    ghost from_gives = { λ e r. r ≡ NotSetUp e };

    fn from(refusal: Refusal) -> ExchangeError {
        ExchangeError::NotSetUp(refusal)
    }
}

impl From<AllocError> for ExchangeError {
    ghost from_gives = { λ _ r. r ≡ Memory };

    fn from(_error: AllocError) -> ExchangeError {
        ExchangeError::Memory
    }
}

impl fmt::Display for ExchangeError {
    fn fmt<W: fmt::Write>(&self, f: &mut fmt::Formatter<W>) -> fmt::Result {
        match self {
            ExchangeError::NotSetUp(refusal) => write!(f, "the set-up was {refusal}"),
            ExchangeError::Memory => write!(f, "memory ran short"),
        }
    }
}

impl Error for ExchangeError {}
