//! Covering a run in place.
ghost use Rattle.std.specs.Prelude.{◌≡◌, replicate};
ghost use Rattle.sessions.specs.Covering.{Admitted};
ghost use Rattle.sessions.specs.Histories.{Promised};
ghost use Rattle.sessions.specs.Reading.{held_by, covering};

use crate::pad::Pad;
use crate::session::Session;
use crate::stream::cover_run;
use crate::used::Used;
use cipher::Engine;
use routes::{Refusal, Route};

impl Session {
    /// How many blocks it takes to cover a run of so many bytes with an engine, or the refusal that comes first.
    fn admit<R: Route>(&self, engine: &Engine<R>, size: usize) -> Result<u64, Refusal>
        ensures { Admitted (held_by R.Route.tally engine.now self.now) size result }
    {
        let Some((rounds, inversions)) = engine.headroom() else {
            return Err(Refusal::NoKey);
        };
        if size > 65536 {
            return Err(Refusal::RunLength(size as u64));
        }
        let blocks = (size as u64).div_ceil(16);
        let left = self.remaining();
        if blocks > left {
            return Err(Refusal::Remaining(left));
        }
        if rounds * blocks > inversions {
            return Err(Refusal::Inversions(inversions));
        }
        Ok(blocks)
    }

    /// Covers or uncovers a run in place: adds to each sixteen bytes of it, and to what is left, the encryption of the next counter block. Gives the
    /// first number used and how many. Refused, with run, session and engine as they were: 2 where no key is set; 4 with the run's length where it
    /// is above 65,536; 5 with the numbers that remain where they are too few; 6 with the inversions that are left where they are. The pad is where
    /// counter blocks are encrypted; it is sixteen bytes 00 afterwards, also where the call was refused.
    pub fn cover<R: Route>(
        &mut self,
        engine: &mut Engine<R>,
        run: &mut [u8],
        pad: &mut [u8; 16],
    ) -> Result<Used, Refusal>
        ensures promised { Promised (held_by R.Route.tally engine.old self.old) (covering run.old result run.new) (held_by R.Route.tally engine.new self.new) }
        ensures wiped { pad.new ≡ replicate 16 0 }
    {
        let guard = Pad { bytes: pad };
        let blocks = self.admit(engine, run.len())?;
        let first = self.next;
        cover_run(engine, &self.prefix, first, run, guard.bytes);
        self.next += blocks;
        Ok(Used {
            first,
            count: blocks,
        })
    }
}
