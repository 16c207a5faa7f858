//! The pair over nibbles, and the map that joins it to the byte field.
ghost use Rattle.std.specs.Prelude.{◌≡◌, ℕ, ◌^◌, ◌<◌, slice_index};
ghost use Rattle.fields.specs.Bytes.{byte};
ghost use Rattle.fields.specs.Matrices.{Transposed};
ghost use Rattle.fields.specs.Towers.{read_nibbles, make_nibbles, into_nibbles, out_of_nibbles, nibble_columns, nibble_back, nibble_rows, nibble_back_rows};
ghost use Rattle.fields.specs.TowerJoins.{nibbles_join};

use crate::byte::Byte;
use crate::map::ByteMap;
use crate::matrix::image;
use crate::nibble::Nibble;
use crate::pair::Pair;

/// The pair over nibbles: 256 elements.
pub type NibblePair = Pair<Nibble>;

/// The images of 01, 02, 04, .. 80, read as bytes.
const COLUMNS: [u8; 8] = [0x01, 0x2E, 0x49, 0x43, 0x35, 0xD0, 0x3D, 0xE9];

/// The bytes from which the elements 01, 02, 04, .. 80 come.
const BACK: [u8; 8] = [0x01, 0x5C, 0xE0, 0x50, 0x1F, 0xEE, 0x55, 0x6A];

/// The columns transposed: row i holds bit i of each image.
const ROWS: [u8; 8] = [0xDD, 0x0A, 0x52, 0xC6, 0x70, 0xD2, 0xAC, 0xA0];

/// The columns of the way back, transposed.
const BACK_ROWS: [u8; 8] = [0x51, 0xB0, 0x72, 0xB2, 0x5A, 0xA4, 0xEE, 0x24];

/// The element that a byte is read as: its high half is the high half of the pair.
fn split(byte: u8) -> NibblePair
    ensures { result ≡ make_nibbles byte }
{
    Pair::from_digits(byte, 16, Nibble::low)
}

/// One impl for each pile: they share `image`, and what is left are the tables and clauses on them, which a generic impl would have to turn into
/// ghost members of one more trait.
impl ByteMap for Pair<Nibble> {
    ghost into = { into_nibbles };

    ghost out = { out_of_nibbles };

    ghost bits = { read_nibbles };

    ghost joined = { nibbles_join };

    fn into(byte: Byte) -> NibblePair {
        split(image(&ROWS, u8::from(byte)))
    }

    fn out(self) -> Byte {
        Byte::from(image(&BACK_ROWS, self.bits()))
    }

    fn bits(self) -> u8 {
        self.digits(16, |nibble| u8::from(nibble))
    }

    fn images() -> [u8; 8]
        ensures images { (i : ℕ) → i < 8 → slice_index result i ≡ read_nibbles (into_nibbles (byte (2 ^ i))) }
        ensures columns { result ≡ nibble_columns }
        ensures rows { Transposed nibble_columns nibble_rows }
    {
        COLUMNS
    }

    fn sources() -> [u8; 8]
        ensures sources { (i : ℕ) → i < 8 → read_nibbles (into_nibbles (byte (slice_index result i))) ≡ 2 ^ i }
        ensures columns { result ≡ nibble_back }
        ensures rows { Transposed nibble_back nibble_back_rows }
    {
        BACK
    }
}
