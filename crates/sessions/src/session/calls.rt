//! Opening and closing a session, and the calls that need no engine.
ghost use Rattle.std.specs.Prelude.{◌≡◌};
ghost use Rattle.sessions.specs.Calls.{remains};
ghost use Rattle.sessions.specs.Reading.{Opened, Remained, Skipped};

use crate::session::{COUNTERS, Session};
use routes::Refusal;

impl Session {
    /// Opens a session under a prefix, at a number or else at 0. Refused: 7 with the prefix's length where it is not 12; then 8 with the opening
    /// number where it is above 2^32.
    pub fn open(prefix: &[u8], at: Option<u64>) -> Result<Session, Refusal>
        ensures { Opened prefix.now at result }
    {
        let Ok(bytes) = <[u8; 12]>::try_from(prefix) else {
            return Err(Refusal::PrefixLength(prefix.len() as u64));
        };
        let next = at.unwrap_or(0);
        if next > COUNTERS {
            return Err(Refusal::OpeningNumber(next));
        }
        Ok(Session {
            prefix: bytes,
            next,
        })
    }

    /// How many counter numbers remain.
    pub fn remaining(&self) -> u64
        ensures promised { Remained self.now result }
        ensures counted { result ≡ remains self.now.next }
    {
        COUNTERS - self.next
    }

    /// Leaves out n numbers, and gives how many remain after that. Refused, with the session as it was: 5 with what remains, where that is less.
    pub fn skip(&mut self, n: u64) -> Result<u64, Refusal>
        ensures { Skipped self.old n result self.new }
    {
        let left = self.remaining();
        if n > left {
            return Err(Refusal::Remaining(left));
        }
        self.next += n;
        Ok(left - n)
    }

    /// Takes the session apart, and gives its next number: where the next session under this prefix has to open.
    pub fn close(self) -> u64
        ensures { result ≡ self.next }
    {
        let Session { prefix: _, next } = self;
        next
    }
}
