//! A block that is encrypted on one route and comes back on another.
ghost use Rattle.std.specs.Prelude.{◌≡◌};
ghost use Rattle.console.specs.Directions.{turned_by};
ghost use Rattle.views.specs.Trips.{CameBack};

use crate::asking::fresh;
use cipher::Engine;
use console::{Direction, Hex};
use routes::{Route, RouteName};
use std::fmt;

/// A block encrypted on one route and decrypted on another, and the tallies of both after.
#[derive(Clone, Copy)]
pub struct RoundTrip {
    block: [u8; 16],
    covered: [u8; 16],
    back: [u8; 16],
    sent: u64,
    read: u64,
}

/// The key of the demonstration.
const KEY: [u8; 16] = [
    0x00, 0x01, 0x02, 0x03, 0x04, 0x05, 0x06, 0x07, 0x08, 0x09, 0x0a, 0x0b, 0x0c, 0x0d, 0x0e, 0x0f,
];

/// The block of the demonstration.
const BLOCK: [u8; 16] = [
    0x00, 0x11, 0x22, 0x33, 0x44, 0x55, 0x66, 0x77, 0x88, 0x99, 0xaa, 0xbb, 0xcc, 0xdd, 0xee, 0xff,
];

/// A block turned under the key of the demonstration on a route that nobody has asked, and the route's tally after.
fn turned(direction: Direction, route: RouteName, mut block: [u8; 16]) -> ([u8; 16], u64)
    ensures block { result.0 ≡ turned_by direction 4 KEY block }
    ensures tally { result.1 ≡ 20 }
{
    let mut engine = Engine::new(fresh(route));
    engine.set_key(&KEY).unwrap();
    direction.turn(&mut engine, &mut block).unwrap();
    (block, engine.retire().tally())
}

impl RoundTrip {
    /// Encrypts the block on the table route and decrypts it on the bit tower.
    pub fn new() -> RoundTrip
        ensures { CameBack KEY BLOCK result }
    {
        let (covered, sent) = turned(Direction::Encrypt, RouteName::Table, BLOCK);
        let (back, read) = turned(Direction::Decrypt, RouteName::BitTower, covered);
        RoundTrip {
            block: BLOCK,
            covered,
            back,
            sent,
            read,
        }
    }
}

impl fmt::Display for RoundTrip {
    fn fmt<W: fmt::Write>(&self, f: &mut fmt::Formatter<W>) -> fmt::Result {
        let RoundTrip { sent, read, .. } = *self;
        let verdict = if self.back == self.block {
            "the block came back on another route"
        } else {
            "THE BLOCK DID NOT COME BACK"
        };
        writeln!(f, "a block under the key {}", Hex(&KEY))?;
        writeln!(f)?;
        writeln!(f, "block      {}", Hex(&self.block))?;
        writeln!(
            f,
            "encrypted  {}  on route table, tally {sent}",
            Hex(&self.covered)
        )?;
        writeln!(
            f,
            "decrypted  {}  on route bit-tower, tally {read}",
            Hex(&self.back)
        )?;
        writeln!(f)?;
        write!(f, "{verdict}")
    }
}
