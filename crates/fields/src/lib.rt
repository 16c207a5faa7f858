//! The finite fields that AES computes in, with every law proved.
//!
//! `Field` is what a field offers: zero, one, sum, product, inverse, a test for equality, and one named element, its marker. `Bit`, `Nibble`
//! and `Byte` are fields of 2, 16 and 256 elements; `Pair<F>` is the quadratic extension of any field F, a field again. `ByteMap` joins a field
//! to the byte field: `NibblePair` and `BitTower` are two fields of 256 elements that are joined so, and inverting in either is inverting bytes.

#![tactic(auto)]

mod bit;
mod bit_tower;
mod byte;
mod field;
mod figures;
mod map;
mod matrix;
mod modular;
mod nibble;
mod nibble_pair;
mod pair;
#[cfg(test)]
mod tests;

pub use bit::Bit;
pub use bit_tower::BitTower;
pub use byte::Byte;
pub use field::Field;
pub use figures::field_figures;
pub use map::{ByteMap, invert_through};
pub use modular::cyclic_product;
pub use nibble::Nibble;
pub use nibble_pair::NibblePair;
pub use pair::Pair;
