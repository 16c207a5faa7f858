//! What the five routes do, and whether they agree.
ghost use Rattle.std.specs.Prelude.{◌≡◌};

use routes::{RouteName, formulas_agree};
use std::fmt;

/// A route's name and what the route does.
#[derive(Clone, Copy)]
struct Account(RouteName);

impl fmt::Display for Account {
    fn fmt<W: fmt::Write>(&self, f: &mut fmt::Formatter<W>) -> fmt::Result {
        let formula = match self.0 {
            RouteName::Power => "r = a·s·s + s with s = a^84, or s where r is 00",
            RouteName::Split =>
                "a^16·t with b = a^17 and t = b·b^8 + b^4, or a^16·b^4 where t is 00",
            RouteName::Table =>
                "a^16 times the inverse of a^17, which a table of sixteen bytes has",
            RouteName::NibblePair => "into the pairs over nibbles, inverted there, and back",
            RouteName::BitTower => "into the three pairs over bits, inverted there, and back",
        };
        write!(f, "{:<11}  {formula}", self.0)
    }
}

/// The five routes compared at every byte.
#[derive(Clone, Copy)]
pub struct Survey {
    agreeing: u16,
}

impl Survey {
    /// Counts the bytes whose inverse is the same by all five.
    pub fn new() -> Survey
        ensures { result.agreeing ≡ 256 }
    {
        let mut agreeing = 0;
        // A `for` and no chain: that a filter by a test that always passes counts 256 of the range was tried, and its proof did not close.
        for byte in 0..256u16 {
            if formulas_agree(byte as u8) {
                agreeing += 1;
            }
        }
        Survey { agreeing }
    }
}

impl fmt::Display for Survey {
    fn fmt<W: fmt::Write>(&self, f: &mut fmt::Formatter<W>) -> fmt::Result {
        let agreeing = self.agreeing;
        writeln!(f, "five routes to the inverse of a byte a")?;
        writeln!(f)?;
        for name in RouteName::ALL {
            writeln!(f, "{}", Account(name))?;
        }
        writeln!(f)?;
        if agreeing == 256 {
            write!(f, "the five agree on all {agreeing} bytes")
        } else {
            write!(f, "THE FIVE DIFFER: they agree on {agreeing} of 256 bytes")
        }
    }
}
