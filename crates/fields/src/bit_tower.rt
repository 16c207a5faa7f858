//! The pile of three pairs over bits, and the map that joins it to the byte field.
ghost use Rattle.std.specs.Prelude.{◌≡◌, ℕ, ◌^◌, ◌<◌, slice_index};
ghost use Rattle.fields.specs.Bytes.{byte};
ghost use Rattle.fields.specs.Matrices.{Transposed};
ghost use Rattle.fields.specs.Towers.{read_pair, make_pair, read_bit, make_bit, read_tower, make_tower, into_tower, out_of_tower, tower_columns, tower_back, tower_rows, tower_back_rows, LeastRoot};
ghost use Rattle.fields.specs.TowerJoins.{tower_joins};

use crate::bit::Bit;
use crate::byte::Byte;
use crate::map::ByteMap;
use crate::matrix::image;
use crate::pair::Pair;

/// The pile of three pairs over bits: 256 elements.
pub type BitTower = Pair<Pair<Pair<Bit>>>;

/// The images of 01, 02, 04, .. 80, read as bytes: the powers of the least root of the byte field's polynomial.
const COLUMNS: [u8; 8] = [0x01, 0x41, 0x66, 0x6C, 0x56, 0x9A, 0x58, 0xC4];

/// The bytes from which the elements 01, 02, 04, .. 80 come.
const BACK: [u8; 8] = [0x01, 0xBC, 0x5C, 0xB0, 0xF3, 0xE7, 0x03, 0xDF];

/// The columns transposed: row i holds bit i of each image.
const ROWS: [u8; 8] = [0x03, 0x34, 0x9C, 0x68, 0x70, 0x0C, 0xDE, 0xA0];

/// The columns of the way back, transposed.
const BACK_ROWS: [u8; 8] = [0xF1, 0xF0, 0xA6, 0x86, 0x9E, 0x3A, 0xB4, 0xBA];

/// The pair of bits that the two lowest bits of `n` are read as. This and what follows are one function for each level, over `from_digits` and
/// `digits`: a trait for all levels would need the size of a level as a const that is computed from the one below.
fn two(n: u8) -> Pair<Bit>
    ensures { result ≡ make_pair make_bit 2 n }
{
    Pair::from_digits(n, 2, |n| Bit { value: n % 2 == 1 })
}

/// The pair of pairs that the four lowest bits of `n` are read as.
fn four(n: u8) -> Pair<Pair<Bit>>
    ensures { result ≡ make_pair (make_pair make_bit 2) 4 n }
{
    Pair::from_digits(n, 4, two)
}

/// The element that a byte is read as: at every level its high half is the high half of the pair.
fn eight(byte: u8) -> BitTower
    ensures { result ≡ make_tower byte }
{
    Pair::from_digits(byte, 16, four)
}

/// The number below 4 that a pair of bits is read as.
fn read_two(p: Pair<Bit>) -> u8
    ensures value { result ≡ read_pair read_bit 2 p }
    ensures bound { result < 4 }
{
    p.digits(2, |bit| u8::from(bit.value))
}

/// The number below 16 that a pair of such pairs is read as.
fn read_four(p: Pair<Pair<Bit>>) -> u8
    ensures value { result ≡ read_pair (read_pair read_bit 2) 4 p }
    ensures bound { result < 16 }
{
    p.digits(4, read_two)
}

/// One impl for each pile: they share `image`, and what is left are the tables and clauses on them, which a generic impl would have to turn into
/// ghost members of one more trait.
impl ByteMap for Pair<Pair<Pair<Bit>>> {
    ghost into = { into_tower };

    ghost out = { out_of_tower };

    ghost bits = { read_tower };

    ghost joined = { tower_joins };

    fn into(byte: Byte) -> BitTower {
        eight(image(&ROWS, u8::from(byte)))
    }

    fn out(self) -> Byte {
        Byte::from(image(&BACK_ROWS, self.bits()))
    }

    fn bits(self) -> u8 {
        self.digits(16, read_four)
    }

    fn images() -> [u8; 8]
        ensures images { (i : ℕ) → i < 8 → slice_index result i ≡ read_tower (into_tower (byte (2 ^ i))) }
        ensures columns { result ≡ tower_columns }
        ensures rows { Transposed tower_columns tower_rows }
        ensures least { LeastRoot result }
    {
        COLUMNS
    }

    fn sources() -> [u8; 8]
        ensures sources { (i : ℕ) → i < 8 → read_tower (into_tower (byte (slice_index result i))) ≡ 2 ^ i }
        ensures columns { result ≡ tower_back }
        ensures rows { Transposed tower_back tower_back_rows }
    {
        BACK
    }
}
