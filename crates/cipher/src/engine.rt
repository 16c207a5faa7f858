//! The engine: the cipher of FIPS 197 over a route.
ghost use Rattle.std.specs.Prelude.{◌≡◌, None};
ghost use Rattle.cipher.specs.Engines.{engine_key, Headroom, KeySet, Turned};
ghost use Rattle.cipher.specs.Fips197.{aes, aes_inverse};
ghost use Rattle.cipher.specs.Layout.{aes_by};

use crate::block::turn_block;
use crate::rounds::{Cipher, Direction, InvCipher};
use crate::schedule::KeySchedule;
use routes::{CAP, Refusal, Route};

/// A block cipher over a route. It keeps the expanded schedule of its key; the key is read off the schedule's first words.
#[derive(Drop)]
pub struct Engine<R> {
    route: R,
    schedule: Option<KeySchedule>,
}

impl<R: Route> Engine<R> {
    /// An engine over a route, with no key.
    pub fn new(route: R) -> Engine<R>
        ensures route { result.route ≡ route }
        ensures keyless { result.schedule ≡ None }
    {
        Engine {
            route,
            schedule: None,
        }
    }

    /// Takes the engine and gives back its route, which knows the tally.
    pub fn retire(self) -> R
        ensures { result ≡ self.route }
    {
        let Engine { route, schedule: _ } = self;
        route
    }

    /// Sets a key in place of the one before. Refused, with the engine as it was: a key that is not 16, 24 or 32 bytes; then a key whose cost would
    /// lift the tally above 2^40.
    pub fn set_key(&mut self, key: &[u8]) -> Result<(), Refusal>
        ensures { KeySet R.Route.tally self.old self.new key.now result }
    {
        let schedule = KeySchedule::expand(&mut self.route, key)?;
        self.schedule = Some(schedule);
        Ok(())
    }

    /// The headroom for blocks: how many rounds each takes under the key set, and how many inversions are left until the tally is 2^40; or none where
    /// no key is set.
    // A pair and no struct: its one caller takes it apart at once.
    pub fn headroom(&self) -> Option<(u64, u64)>
        ensures { Headroom (engine_key self.now) (R.Route.tally self.now.route) result }
    {
        let Some(schedule) = &self.schedule else {
            return None;
        };
        Some((schedule.rounds() as u64, CAP - self.route.tally()))
    }

    /// Replaces a block of 16 bytes by its cipher under the key set. Refused, with block and engine as they were: no key set; then a block that is
    /// not 16 bytes; then rounds that would lift the tally above 2^40.
    pub fn encrypt(&mut self, block: &mut [u8]) -> Result<(), Refusal>
        ensures { Turned R.Route.tally self.old self.new aes block.old block.new result }
    {
        self.turn::<Cipher>(block)
    }

    /// Replaces a block of 16 bytes by its inverse cipher under the key set. Refused as `encrypt` is.
    pub fn decrypt(&mut self, block: &mut [u8]) -> Result<(), Refusal>
        ensures { Turned R.Route.tally self.old self.new aes_inverse block.old block.new result }
    {
        self.turn::<InvCipher>(block)
    }

    /// Turns a block in a direction.
    fn turn<D: Direction>(&mut self, block: &mut [u8]) -> Result<(), Refusal>
        ensures { Turned R.Route.tally self.old self.new (aes_by D.turned) block.old block.new result }
    {
        let Some(schedule) = &self.schedule else {
            return Err(Refusal::NoKey);
        };
        let length = block.len() as u64;
        let whole = block.as_mut_array::<16>();
        let Some(block) = whole else {
            return Err(Refusal::BlockLength(length));
        };
        // Whatever is refused is refused here, before block and route are touched.
        let left = CAP - self.route.tally();
        if schedule.rounds() as u64 > left {
            return Err(Refusal::Inversions(left));
        }
        turn_block::<D, R>(&mut self.route, schedule, block);
        Ok(())
    }
}
