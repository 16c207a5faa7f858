//! The five routes by name.
ghost use Rattle.std.specs.Prelude.{◌≡◌, Some, codes};
ghost use Rattle.routes.specs.Names.{name_text, Named, ok_of, route_at};

use std::error::Error;
use std::fmt;
use std::str::FromStr;

/// The name of a route.
#[derive(Clone, Copy, PartialEq, Eq, Debug)]
pub enum RouteName {
    /// By powers.
    Power,
    /// By splitting off the subfield of sixteen elements.
    Split,
    /// By a table of sixteen bytes.
    Table,
    /// By way of the pair over nibbles.
    NibblePair,
    /// By way of three pairs over bits.
    BitTower,
}

impl RouteName {
    /// The five, in the order in which programs show them.
    pub const ALL: [RouteName; 5] = [
        RouteName::Power,
        RouteName::Split,
        RouteName::Table,
        RouteName::NibblePair,
        RouteName::BitTower,
    ];

    /// The name as text.
    pub fn text(self) -> &'static str
        ensures { result.now ≡ name_text self }
    {
        match self {
            RouteName::Power => "power",
            RouteName::Split => "split",
            RouteName::Table => "table",
            RouteName::NibblePair => "nibble-pair",
            RouteName::BitTower => "bit-tower",
        }
    }
}

impl fmt::Display for RouteName {
    ghost output = { λ name. Some (name_text name) };

    fn fmt<W: fmt::Write>(&self, f: &mut fmt::Formatter<W>) -> fmt::Result {
        f.pad(self.text())
    }
}

/// A text or a number that names no route.
#[derive(Clone, Copy, PartialEq, Eq, Debug)]
pub struct UnknownRoute;

impl fmt::Display for UnknownRoute {
    ghost output = { λ _. Some (codes "power, split, table, nibble-pair or bit-tower was expected") };

    fn fmt<W: fmt::Write>(&self, f: &mut fmt::Formatter<W>) -> fmt::Result {
        write!(
            f,
            "power, split, table, nibble-pair or bit-tower was expected"
        )
    }
}

impl Error for UnknownRoute {}

/// The route that a text names.
impl FromStr for RouteName {
    type Err = UnknownRoute;

    ghost from_str_gives = { λ text r. Named text (ok_of r) };

    fn from_str(text: &str) -> Result<RouteName, UnknownRoute> {
        match text {
            "power" => Ok(RouteName::Power),
            "split" => Ok(RouteName::Split),
            "table" => Ok(RouteName::Table),
            "nibble-pair" => Ok(RouteName::NibblePair),
            "bit-tower" => Ok(RouteName::BitTower),
            _ => Err(UnknownRoute),
        }
    }
}

/// The route that a number from 0 to 4 names.
impl TryFrom<u32> for RouteName {
    type Error = UnknownRoute;

    ghost try_from_gives = { λ number r. ok_of r ≡ route_at number };

    fn try_from(number: u32) -> Result<RouteName, UnknownRoute> {
        match number {
            0 => Ok(RouteName::Power),
            1 => Ok(RouteName::Split),
            2 => Ok(RouteName::Table),
            3 => Ok(RouteName::NibblePair),
            4 => Ok(RouteName::BitTower),
            _ => Err(UnknownRoute),
        }
    }
}
