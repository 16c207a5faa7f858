//! What a route goes through on a byte.
ghost use Rattle.std.specs.Prelude.{◌≡◌};
ghost use Rattle.fields.specs.Bytes.{byte};
ghost use Rattle.views.specs.Trails.{Goes, FieldGoes, route_of};

use fields::{BitTower, ByteMap, NibblePair};
use routes::{
    FieldSteps, PowerFormula, PowerSteps, RouteName, SplitFormula, SplitSteps, TableFormula,
    TableSteps, field_steps,
};
use std::fmt;

/// The steps of one of the five routes.
#[derive(Clone, Copy)]
pub enum Trail {
    /// Those of the power route.
    ByPower(PowerSteps),
    /// Those of the split route.
    BySplit(SplitSteps),
    /// Those of the table route.
    ByTable(TableSteps),
    /// Those through the pairs over nibbles.
    ByPair(FieldSteps),
    /// Those through the three pairs over bits.
    ByTower(FieldSteps),
}

/// The way of a byte through the field `F`. The inverse of its image is the image of its inverse.
pub fn through<F: ByteMap>(a: u8) -> FieldSteps
    ensures { FieldGoes (λ b. F.ByteMap.bits (F.ByteMap.into (byte b))) a result }
{
    field_steps::<F>(a)
}

impl Trail {
    /// What the route of this name goes through on a byte.
    pub fn new(name: RouteName, a: u8) -> Trail
        ensures route { route_of result ≡ name }
        ensures steps { Goes a result }
    {
        // A match and no table of functions: the steps of each formula have a type of their own.
        match name {
            RouteName::Power => Trail::ByPower(PowerFormula::steps(a)),
            RouteName::Split => Trail::BySplit(SplitFormula::steps(a)),
            RouteName::Table => Trail::ByTable(TableFormula::steps(a)),
            RouteName::NibblePair => Trail::ByPair(through::<NibblePair>(a)),
            RouteName::BitTower => Trail::ByTower(through::<BitTower>(a)),
        }
    }
}

/// The steps by name, in 26 characters.
impl fmt::Display for Trail {
    fn fmt<W: fmt::Write>(&self, f: &mut fmt::Formatter<W>) -> fmt::Result {
        match *self {
            Trail::ByPower(steps) => {
                let s = u8::from(steps.s);
                let r = u8::from(steps.r);
                write!(f, "s {s:02X}  r {r:02X}                ")
            }
            Trail::BySplit(steps) => {
                let b = u8::from(steps.b);
                let b4 = u8::from(steps.b4);
                let b8 = u8::from(steps.b8);
                let t = u8::from(steps.t);
                write!(f, "b {b:02X}  b^4 {b4:02X}  b^8 {b8:02X}  t {t:02X}")
            }
            Trail::ByTable(steps) => {
                let b = u8::from(steps.b);
                let index = steps.index;
                let entry = steps.entry;
                write!(f, "b {b:02X}  index {index:>2}  entry {entry:02X}  ")
            }
            Trail::ByPair(steps) | Trail::ByTower(steps) => {
                let image = steps.image;
                let inverse = steps.image_inverse;
                write!(f, "image {image:02X}  its inverse {inverse:02X}  ")
            }
        }
    }
}
