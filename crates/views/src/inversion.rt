//! How a byte is inverted by way of three fields.
ghost use Rattle.std.specs.Prelude.{◌≡◌, ◌&&◌, ◌==◌};
ghost use Rattle.fields.specs.Bytes.{byte, byte_product};
ghost use Rattle.fields.specs.Towers.{into_nibbles, read_nibbles, into_tower, read_tower};
ghost use Rattle.views.specs.Trails.{FieldGoes};

use crate::trail::through;
use fields::{BitTower, Byte, Field, NibblePair};
use routes::FieldSteps;
use std::fmt;

/// A byte and its ways through three fields.
#[derive(Clone, Copy)]
pub struct Inversion {
    byte: u8,
    bytes: FieldSteps,
    nibbles: FieldSteps,
    bits: FieldSteps,
}

impl Inversion {
    /// Takes a byte through the three fields.
    pub fn new(a: u8) -> Inversion
        ensures byte { result.byte ≡ a }
        ensures bytes { FieldGoes (λ b. (byte b).value) a result.bytes }
        ensures nibbles { FieldGoes (λ b. read_nibbles (into_nibbles (byte b))) a result.nibbles }
        ensures bits { FieldGoes (λ b. read_tower (into_tower (byte b))) a result.bits }
    {
        Inversion {
            byte: a,
            bytes: through::<Byte>(a),
            nibbles: through::<NibblePair>(a),
            bits: through::<BitTower>(a),
        }
    }

    /// Whether the three ways brought back the same byte.
    fn agrees(&self) -> bool
        ensures { result ≡ (self.now.bytes.inverse == self.now.nibbles.inverse) && (self.now.bytes.inverse == self.now.bits.inverse) }
    {
        (self.bytes.inverse == self.nibbles.inverse) & (self.bytes.inverse == self.bits.inverse)
    }

    /// The product of the byte and what came back.
    fn product(&self) -> u8
        ensures { result ≡ (byte_product (byte self.now.byte) (byte self.now.bytes.inverse)).value }
    {
        u8::from(Byte::from(self.byte).product(Byte::from(self.bytes.inverse)))
    }
}

/// A way through a field, to be shown.
#[derive(Clone, Copy)]
struct Way(FieldSteps);

impl fmt::Display for Way {
    fn fmt<W: fmt::Write>(&self, f: &mut fmt::Formatter<W>) -> fmt::Result {
        let FieldSteps {
            image,
            image_inverse,
            inverse,
        } = self.0;
        write!(f, "{image:02X}       {image_inverse:02X}    {inverse:02X}")
    }
}

impl fmt::Display for Inversion {
    fn fmt<W: fmt::Write>(&self, f: &mut fmt::Formatter<W>) -> fmt::Result {
        let byte = self.byte;
        let back = self.bytes.inverse;
        let product = self.product();
        let verdict = if self.agrees() {
            "all three agree"
        } else {
            "THE THREE DIFFER"
        };
        writeln!(f, "inverting {byte:02X} in three fields of 256 elements")?;
        writeln!(f)?;
        writeln!(f, "field                  image  inverse  back")?;
        writeln!(f, "byte field                {}", Way(self.bytes))?;
        writeln!(f, "pair over nibbles         {}", Way(self.nibbles))?;
        writeln!(f, "three pairs over bits     {}", Way(self.bits))?;
        writeln!(f)?;
        write!(f, "{verdict}: {byte:02X} · {back:02X} = {product:02X}")
    }
}
