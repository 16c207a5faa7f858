//! Calls of a session as values, and what they are answered.
ghost use Rattle.std.specs.Prelude.{Some};
ghost use Rattle.sessions.specs.Showing.{given_text};

use crate::used::Used;
use routes::Refusal;
use std::fmt;

/// A call that is to be carried out. A run is covered in place.
#[derive(Clone, Drop)]
pub enum SessionCall {
    /// Cover this run.
    Cover(Vec<u8>),
    /// Leave out so many counter numbers.
    Skip(u64),
    /// Ask how many counter numbers remain.
    Remaining,
}

/// What a call gave that was taken.
#[derive(Clone, Copy, PartialEq, Eq, Debug)]
pub enum Given {
    /// How many counter numbers remain.
    Left(u64),
    /// The counter numbers used.
    Used(Used),
}

/// The number that remains, or the numbers used.
impl fmt::Display for Given {
    ghost output = { λ given. Some (given_text given) };

    fn fmt<W: fmt::Write>(&self, f: &mut fmt::Formatter<W>) -> fmt::Result {
        match *self {
            Given::Left(n) => write!(f, "{n}"),
            Given::Used(used) => write!(f, "{used}"),
        }
    }
}

/// What a call was answered: what it gave, or why it was refused.
pub type SessionAnswer = Result<Given, Refusal>;

/// What stands in the place of an answer until the call is carried out.
pub(crate) const UNANSWERED: SessionAnswer = Ok(Given::Left(0));

/// A call that was carried out, with its run as it was left, and its answer.
#[derive(Drop)]
pub struct Answered {
    /// The call.
    pub call: SessionCall,
    /// Its answer.
    pub answer: SessionAnswer,
}
