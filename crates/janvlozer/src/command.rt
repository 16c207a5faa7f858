//! What the words of the command line ask for.
ghost use Rattle.std.specs.Prelude.{◌≡◌};
ghost use Rattle.janvlozer.specs.declared.command.Misuse.TheVariants.{Route};
ghost use Rattle.janvlozer.specs.Commands.{Alone, After, Turns, TurnsOn, Asked};

use console::{Direction, byte};
use routes::{RouteName, UnknownRoute};
use std::error::Error;
use std::fmt;

/// What the program is to do.
#[derive(Clone, Copy)]
pub enum Command {
    /// Show what the program does: a byte inverted, and then the routes.
    Demonstration,
    /// Invert this byte in three fields and by five routes.
    Invert(u8),
    /// Say what the five routes do, and compare them at every byte.
    Routes,
    /// Encrypt or decrypt a block on the named route. Key and block are the second and third word.
    Turn {
        /// Whether the block is encrypted or decrypted.
        direction: Direction,
        /// The route that runs.
        route: RouteName,
    },
    /// Say what the program can be asked.
    Help,
}

/// The route of a block where none is named.
pub const USUAL_ROUTE: RouteName = RouteName::Table;

/// Words that ask for nothing that the program does.
#[derive(Clone, Copy, PartialEq, Eq, Debug)]
pub enum Misuse {
    /// The first word is no command, or words are missing or left over.
    Words,
    /// What stands after `invert` is not two hexadecimal digits.
    Digits,
    /// What stands after `--route` is no route's name.
    Route,
}

impl fmt::Display for Misuse {
    fn fmt<W: fmt::Write>(&self, f: &mut fmt::Formatter<W>) -> fmt::Result {
        let expected = match self {
            Misuse::Words => {
                "invert BB, routes, encrypt KEY BLOCK, decrypt KEY BLOCK, help, or no words"
            }
            Misuse::Digits => "exactly two hexadecimal digits after invert, as invert 53",
            Misuse::Route => "power, split, table, nibble-pair or bit-tower after --route",
        };
        write!(f, "expected {expected}")
    }
}

impl Error for Misuse {}

/// A word that names no route stands after `--route`.
impl From<UnknownRoute> for Misuse {
    ghost from_gives = { λ _ misuse. misuse ≡ Route };

    fn from(_unknown: UnknownRoute) -> Misuse {
        Misuse::Route
    }
}

/// The command that the words make.
pub fn parse(words: &[String]) -> Result<Command, Misuse>
    ensures { Asked words.now result }
{
    match words {
        [] => Ok(Command::Demonstration),
        [word] => alone(word.as_str()),
        [word, text] => with_byte(word.as_str(), text.as_str()),
        [word, _, _] => turn(word.as_str(), USUAL_ROUTE),
        [word, _, _, flag, name] => turn_on(word.as_str(), flag.as_str(), name.as_str()),
        _ => Err(Misuse::Words),
    }
}

/// The command of one word.
fn alone(word: &str) -> Result<Command, Misuse>
    ensures { Alone word.now result }
{
    match word {
        "routes" => Ok(Command::Routes),
        "help" => Ok(Command::Help),
        _ => Err(Misuse::Words),
    }
}

/// The command of a word that turns a block, on a route.
fn turn(word: &str, route: RouteName) -> Result<Command, Misuse>
    ensures { Turns word.now route result }
{
    let direction = match word {
        "encrypt" => Direction::Encrypt,
        "decrypt" => Direction::Decrypt,
        _ => return Err(Misuse::Words),
    };
    Ok(Command::Turn { direction, route })
}

/// The same on a route that is named after `--route`.
fn turn_on(word: &str, flag: &str, name: &str) -> Result<Command, Misuse>
    ensures { TurnsOn word.now flag.now name.now result }
{
    if flag != "--route" {
        return Err(Misuse::Words);
    }
    turn(word, name.parse::<RouteName>()?)
}

/// The command of a word and a byte.
fn with_byte(word: &str, text: &str) -> Result<Command, Misuse>
    ensures { After word.now text.now result }
{
    if word != "invert" {
        return Err(Misuse::Words);
    }
    byte(text).map(Command::Invert).ok_or(Misuse::Digits)
}
