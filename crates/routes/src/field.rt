//! The route by way of a field that a map joins to the byte field.
ghost use Rattle.std.specs.Prelude.{◌≡◌, ℕ, List};
ghost use Rattle.fields.specs.Bytes.{byte};
ghost use Rattle.routes.specs.Inverting.{Inverts};
ghost use Rattle.routes.specs.Names.{name_text};
ghost use Rattle.routes.specs.declared.name.RouteName.TheVariants.{NibblePair, BitTower};

use crate::formula::Formula;
use crate::metered::Metered;
use crate::name::RouteName;
use fields::{BitTower, Byte, ByteMap, Field, NibblePair};
use std::marker::PhantomData;

/// Map in, take the field's inverse, map out: for every field that a map joins to the byte field.
#[derive(Drop)]
pub struct FieldFormula<F> {
    field: PhantomData<F>,
}

/// The route through the pair over nibbles.
pub type ByNibblePair = Metered<FieldFormula<NibblePair>>;

/// The route through the pile of three pairs over bits.
pub type ByBitTower = Metered<FieldFormula<BitTower>>;

/// What the formula goes through: the image and its inverse, read as bytes.
#[derive(Clone, Copy)]
pub struct FieldSteps {
    /// The image of the byte.
    pub image: u8,
    /// The image's inverse.
    pub image_inverse: u8,
    /// What that maps back to: the inverse of the byte.
    pub inverse: u8,
}

/// A field with a name for people.
pub trait NamedField: ByteMap {
    ghost titled: { List ℕ };

    /// The field's name.
    fn title() -> &'static str
        ensures { result.now ≡ titled };
}

impl NamedField for NibblePair {
    ghost titled = { name_text NibblePair };

    fn title() -> &'static str {
        RouteName::NibblePair.text()
    }
}

impl NamedField for BitTower {
    ghost titled = { name_text BitTower };

    fn title() -> &'static str {
        RouteName::BitTower.text()
    }
}

/// The formula through the field `F`, step by step.
pub fn field_steps<F: ByteMap>(a: u8) -> FieldSteps
    ensures image { result.image ≡ F.ByteMap.bits (F.ByteMap.into (byte a)) }
    ensures inverted { result.image_inverse ≡ F.ByteMap.bits (F.Field.inverse (F.ByteMap.into (byte a))) }
    ensures inverse { Inverts a result.inverse }
{
    let image = F::into(Byte::from(a));
    let image_inverse = image.inverse();
    FieldSteps {
        image: image.bits(),
        image_inverse: image_inverse.bits(),
        inverse: u8::from(image_inverse.out()),
    }
}

impl<F: NamedField> Formula for FieldFormula<F> {
    type Choice = ();

    ghost called = { λ _. F.NamedField.titled };

    ghost chosen = { λ _. F.NamedField.titled };

    fn new(_choice: ()) -> FieldFormula<F> {
        FieldFormula { field: PhantomData }
    }

    fn called(&self) -> &'static str {
        F::title()
    }

    fn inverse(&self, byte: u8) -> u8 {
        field_steps::<F>(byte).inverse
    }
}
