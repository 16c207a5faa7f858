//! The route by a table of sixteen bytes.
ghost use Rattle.std.specs.Prelude.{◌≡◌, ◌<◌, cond, slice_index};
ghost use Rattle.fields.specs.Bytes.{byte};
ghost use Rattle.routes.specs.Formulas.{byte_power, table_index, inverse_table};
ghost use Rattle.routes.specs.Inverting.{Inverts};
ghost use Rattle.routes.specs.Names.{name_text};
ghost use Rattle.routes.specs.declared.name.RouteName.TheVariants.{Table};

use crate::additive_power::sixteenth_and_next;
use crate::formula::Formula;
use crate::metered::Metered;
use crate::name::RouteName;
use crate::select::{bit, keep};
use fields::{Byte, Field};

/// With b = a^17, the inverse is a^16 times the entry of a table at an index that is made of bits 3, 6, 5 and 0 of b.
#[derive(Clone, Copy)]
pub struct TableFormula;

/// The route by that formula.
pub type Table = Metered<TableFormula>;

/// What the formula goes through.
#[derive(Clone, Copy)]
pub struct TableSteps {
    /// a^17.
    pub b: Byte,
    /// Where the inverse of b stands in the table.
    pub index: u8,
    /// What stands there.
    pub entry: u8,
    /// The inverse of a.
    pub inverse: u8,
}

/// The inverse of each 17th power at its index.
const INVERSES: [u8; 16] = [
    0x00, 0x01, 0x0C, 0xE0, 0xED, 0x5C, 0xB1, 0x0D, 0xB0, 0xE1, 0xBD, 0xBC, 0x51, 0xEC, 0x5D, 0x50,
];

/// The index of a 17th power.
fn index_of(b: u8) -> u8
    ensures value { result ≡ table_index b }
    ensures bound { result < 16 }
{
    bit(b, 3) * 8 + bit(b, 6) * 4 + bit(b, 5) * 2 + bit(b, 0)
}

/// The entry at an index, taken by going over the whole table, so that no address depends on the byte.
fn entry_at(index: u8) -> u8
    requires { index < 16 }
    ensures { result ≡ slice_index inverse_table index }
{
    let mut found = 0;
    for (i, entry) in INVERSES.iter().enumerate() {
        found ^= keep(*entry, i == usize::from(index));
    }
    found
}

impl TableFormula {
    /// The formula step by step.
    pub fn steps(a: u8) -> TableSteps
        ensures b { result.b ≡ byte_power 17 (byte a) }
        ensures index { result.index ≡ table_index result.b.value }
        ensures entry { result.entry ≡ slice_index inverse_table result.index }
        ensures inverse { Inverts a result.inverse }
    {
        let (a16, b) = sixteenth_and_next(a);
        let index = index_of(u8::from(b));
        let entry = entry_at(index);
        TableSteps {
            b,
            index,
            entry,
            inverse: u8::from(a16.product(Byte::from(entry))),
        }
    }
}

impl Formula for TableFormula {
    type Choice = ();

    ghost called = { λ _. name_text Table };

    ghost chosen = { λ _. name_text Table };

    fn new(_choice: ()) -> TableFormula {
        TableFormula
    }

    fn called(&self) -> &'static str {
        RouteName::Table.text()
    }

    fn inverse(&self, byte: u8) -> u8 {
        Self::steps(byte).inverse
    }
}
