//! The two ways of turning a block.
ghost use Rattle.cipher.specs.Engines.{Turned};
ghost use Rattle.console.specs.Directions.{turned_by};

use cipher::Engine;
use routes::{Refusal, Route};

/// Which way a block is turned.
#[derive(Clone, Copy, PartialEq, Eq, Debug)]
pub enum Direction {
    /// Forwards, by the cipher.
    Encrypt,
    /// Backwards, by the inverse cipher.
    Decrypt,
}

impl Direction {
    /// Turns a block this way.
    pub fn turn<R: Route>(self, engine: &mut Engine<R>, block: &mut [u8]) -> Result<(), Refusal>
        ensures { Turned R.Route.tally engine.old engine.new (turned_by self) block.old block.new result }
    {
        match self {
            Direction::Encrypt => engine.encrypt(block),
            Direction::Decrypt => engine.decrypt(block),
        }
    }
}
