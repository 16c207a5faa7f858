//! The additive powers by name. The enum stands alone in its file, since a definition of specs/ names it.

/// A power that carries sums to sums.
#[derive(Clone, Copy)]
pub(crate) enum AdditivePower {
    Fourth,
    Sixteenth,
    SixtyFourth,
}
