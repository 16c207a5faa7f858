//! Maps that join a field to the byte field.
ghost use Rattle.std.specs.Prelude.{◌≡◌, ℕ, ◌^◌, ◌<◌, slice_index};
ghost use Rattle.fields.specs.Bytes.{byte, byte_inverse};
ghost use Rattle.fields.specs.Towers.{JoinsBytes};
ghost use Rattle.fields.specs.declared.byte.Byte.{Byte};
ghost use Rattle.std.proofs.Common.{rules, arith};

use crate::byte::Byte;
use crate::field::Field;

/// A field that a map joins to the byte field: `into` and `out` undo each other, and carry sums to sums and products to products.
pub trait ByteMap: Field {
    ghost into: { Byte → Self };

    ghost out: { Self → Byte };

    ghost bits: { Self → ℕ };

    /// The image of a byte.
    fn into(byte: Byte) -> Self
        ensures { result ≡ into byte };

    /// The byte whose image this is.
    fn out(self) -> Byte
        ensures { result ≡ out self };

    /// The element read as a byte: at every level the high half of a pair stands in the high half.
    fn bits(self) -> u8
        ensures { result ≡ bits self };

    /// The images of 01, 02, 04, .. 80, read as bytes.
    fn images() -> [u8; 8]
        ensures images { (i : ℕ) → i < 8 → slice_index result i ≡ bits (into (byte (2 ^ i))) };

    /// The bytes whose images, read as bytes, are 01, 02, 04, .. 80.
    fn sources() -> [u8; 8]
        ensures sources { (i : ℕ) → i < 8 → bits (into (byte (slice_index result i))) ≡ 2 ^ i };

    ghost joined: { JoinsBytes Self.Field.sum Self.Field.product into out };
}

/// The inverse of a byte by way of a field that is joined to the byte field. It is the byte field's own inverse, whichever the field.
pub fn invert_through<F: ByteMap>(byte: Byte) -> Byte
    ensures { result ≡ byte_inverse byte }
{
    F::into(byte).inverse().out()
}

/// The powers of x below x^8.
const POWERS: [u8; 8] = [0x01, 0x02, 0x04, 0x08, 0x10, 0x20, 0x40, 0x80];

/// The byte field is joined to itself by the map that alters nothing.
impl ByteMap for Byte {
    ghost into = { λ b. b };

    ghost out = { λ b. b };

    ghost bits = { λ b. b.value };

    ghost joined = { first_of (Prim.search rules, Prim.grind (arith, Self.row.coded.inj)) };

    fn into(byte: Byte) -> Byte {
        byte
    }

    fn out(self) -> Byte {
        self
    }

    fn bits(self) -> u8 {
        u8::from(self)
    }

    fn images() -> [u8; 8] {
        POWERS
    }

    fn sources() -> [u8; 8] {
        POWERS
    }
}
