//! What each command prints.
use crate::command::Command;
use anyhow::{Context, anyhow};
use console::{Direction, bytes};
use routes::RouteName;
use views::{Inverted, RoundTrip, Survey, turn_block};

/// The byte of the demonstration.
const DEMONSTRATION: u8 = 0x53;

/// Prints what a command asks for.
pub fn show(
    rt: &(impl Print + AllocGlobal),
    command: Command,
    words: &[String],
) -> anyhow::Result<()> {
    // A match and no table of functions: the commands carry values of different types.
    match command {
        Command::Demonstration => show_demonstration(rt)?,
        Command::Invert(byte) => rt.println(Inverted(byte))?,
        Command::Routes => rt.println(Survey::new())?,
        Command::Turn { direction, route } => show_turned(rt, direction, route, words)?,
        Command::Help => rt.println(HELP)?,
    }
    Ok(())
}

/// Prints a byte as it is inverted, what the routes do, and a block that comes back on another route.
fn show_demonstration(rt: &impl Print) -> anyhow::Result<()> {
    rt.println(Inverted(DEMONSTRATION))?;
    println!(rt)?;
    rt.println(Survey::new())?;
    println!(rt)?;
    rt.println(RoundTrip::new())?;
    Ok(())
}

/// What the program can be asked.
const HELP: &str = "\
janvlozer                          a demonstration
janvlozer invert BB                how the byte BB is inverted in three fields and by five routes
janvlozer routes                   what the five routes do, and whether they agree
janvlozer encrypt KEY BLOCK        a block of 16 bytes encrypted under a key of 16, 24 or 32 bytes
janvlozer decrypt KEY BLOCK        the same backwards
  --route NAME                     on power, split, table, nibble-pair or bit-tower; table where none is named
janvlozer help                     these lines

KEY and BLOCK are hexadecimal digits in either case, two a byte.";

/// Prints a block turned on a route. Key and block are the second and third word.
fn show_turned(
    rt: &(impl Print + AllocGlobal),
    direction: Direction,
    route: RouteName,
    words: &[String],
) -> anyhow::Result<()> {
    let [_, key, block, ..] = words else {
        return Err(anyhow!("a key and a block were expected"));
    };
    let key = bytes(rt.alloc(), key.as_str())?.context(
        "the key was expected as hexadecimal digits, two a byte",
    )?;
    let block = bytes(rt.alloc(), block.as_str())?.context(
        "the block was expected as hexadecimal digits, two a byte",
    )?;
    rt.println(turn_block(direction, route, key.as_slice(), block)?)?;
    Ok(())
}
