//! The counter numbers that a covering used.
ghost use Rattle.std.specs.Prelude.{Some};
ghost use Rattle.sessions.specs.Showing.{used_text};

use std::fmt;

/// Counter numbers that were used, one after the other.
#[derive(Clone, Copy, PartialEq, Eq, Debug)]
pub struct Used {
    /// The first of them.
    pub first: u64,
    /// How many there are.
    pub count: u64,
}

/// The first number, and how many there are.
impl fmt::Display for Used {
    ghost output = { λ u. Some (used_text u) };

    fn fmt<W: fmt::Write>(&self, f: &mut fmt::Formatter<W>) -> fmt::Result {
        let Used { first, count } = *self;
        write!(f, "{first} {count}")
    }
}
