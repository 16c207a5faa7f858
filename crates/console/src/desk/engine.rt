//! The commands that need an engine and no session. They are given the engine's place alone, so a session stays as it is.
ghost use Rattle.std.specs.Prelude.{◌≡◌, None};
ghost use Rattle.console.specs.Directions.{turned_by};
ghost use Rattle.console.specs.Desks.{Routed, Keyed, BlockTurned, Retired};

use crate::answer::{Answer, Failure, Unfit};
use crate::direction::Direction;
use cipher::Engine;
use routes::{AnyRoute, Route, RouteName};

/// Makes a route and an engine from it, where there is none.
pub(super) fn make(
    engine: &mut Option<Engine<AnyRoute>>,
    name: RouteName,
    start: u64,
) -> Result<Answer, Failure>
    ensures { Routed engine.old name start engine.new result }
{
    if engine.is_some() {
        return Err(Unfit::EngineThere.into());
    }
    *engine = Some(Engine::new(AnyRoute::new(name, start)?));
    Ok(Answer::Taken)
}

/// Sets a key.
pub(super) fn set_key(engine: &mut Option<Engine<AnyRoute>>, key: &[u8]) -> Result<Answer, Failure>
    ensures { Keyed engine.old key.now engine.new result }
{
    engine.as_mut().ok_or(Unfit::EngineMissing)?.set_key(key)?;
    Ok(Answer::Taken)
}

/// Encrypts or decrypts a block.
#[tactic(auto, using(crate::proofs::Desks::block_turned))]
pub(super) fn turn(
    engine: &mut Option<Engine<AnyRoute>>,
    direction: Direction,
    mut block: Vec<u8>,
) -> Result<Answer, Failure>
    ensures { BlockTurned (turned_by direction) engine.old block.items engine.new result }
{
    let engine = engine.as_mut().ok_or(Unfit::EngineMissing)?;
    direction.turn(engine, block.as_mut_slice())?;
    Ok(Answer::Block(block))
}

/// Retires the engine, and tells its tally.
pub(super) fn retire(engine: &mut Option<Engine<AnyRoute>>) -> Result<Answer, Failure>
    ensures told { Retired engine.old result }
    ensures gone { engine.new ≡ None }
{
    let engine = engine.take().ok_or(Unfit::EngineMissing)?;
    Ok(Answer::Number(engine.retire().tally()))
}
