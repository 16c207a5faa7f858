//! The five formulas as one type. The enum stands alone in its file, since definitions of specs/ that its functions cite name it.
use crate::field::FieldFormula;
use crate::power::PowerFormula;
use crate::split::SplitFormula;
use crate::table::TableFormula;
use fields::{BitTower, NibblePair};

/// One of the five formulas: its type says which.
#[derive(Drop)]
pub enum AnyFormula {
    /// By powers.
    ByPower(PowerFormula),
    /// By splitting off the subfield of sixteen elements.
    BySplit(SplitFormula),
    /// By a table of sixteen bytes.
    ByTable(TableFormula),
    /// By way of the pair over nibbles.
    ByPair(FieldFormula<NibblePair>),
    /// By way of three pairs over bits.
    ByTower(FieldFormula<BitTower>),
}
