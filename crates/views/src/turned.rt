//! A block encrypted or decrypted on a route.
ghost use Rattle.views.specs.Blocks.{BlockTurned};

use cipher::Engine;
use console::{Direction, Hex};
use routes::{AnyRoute, Refusal, Route, RouteName};
use std::fmt;

/// A block as it was turned, the route that ran, and its tally after.
#[derive(Drop)]
pub struct TurnedBlock {
    direction: Direction,
    route: RouteName,
    block: Vec<u8>,
    tally: u64,
}

/// Turns a block under a key on a route that begins with the tally 0.
pub fn turn_block(
    direction: Direction,
    route: RouteName,
    key: &[u8],
    mut block: Vec<u8>,
) -> Result<TurnedBlock, Refusal>
    ensures { BlockTurned direction route key.now block.items result }
{
    let mut engine = Engine::new(AnyRoute::new(route, 0)?);
    engine.set_key(key)?;
    direction.turn(&mut engine, block.as_mut_slice())?;
    let tally = engine.retire().tally();
    Ok(TurnedBlock {
        direction,
        route,
        block,
        tally,
    })
}

impl fmt::Display for TurnedBlock {
    fn fmt<W: fmt::Write>(&self, f: &mut fmt::Formatter<W>) -> fmt::Result {
        let done = match self.direction {
            Direction::Encrypt => "encrypted",
            Direction::Decrypt => "decrypted",
        };
        let block = Hex(self.block.as_slice());
        let route = self.route;
        let tally = self.tally;
        write!(f, "{done}  {block}  on route {route}, tally {tally}")
    }
}
