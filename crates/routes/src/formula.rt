//! Formulas for the inverse of a byte.
ghost use Rattle.std.specs.Prelude.{◌≡◌, ℕ, List};
ghost use Rattle.routes.specs.Inverting.{Inverts, AllInvert};

/// A formula for the inverse of a byte, with a name.
pub trait Formula: Drop {
    /// What is to be chosen: nothing, or which of several formulas it is.
    type Choice: Drop;

    ghost called: { Self → List ℕ };

    ghost chosen: { Self.Choice → List ℕ };

    /// The formula that was chosen.
    fn new(choice: Self::Choice) -> Self
        ensures { called result ≡ chosen choice };

    /// The formula's name for people.
    fn called(&self) -> &'static str
        ensures { result.now ≡ called self.now };

    /// The inverse of a byte, 00 for 00.
    fn inverse(&self, byte: u8) -> u8
        ensures { Inverts byte result };

    /// Replaces each of the sixteen bytes by its inverse. A formula that stands for several has a body of its own, which looks once at which of them it
    /// is and not at every byte.
    fn invert_all(&self, bytes: &mut [u8; 16])
        ensures { AllInvert bytes.old bytes.new }
    {
        for byte in bytes.iter_mut() {
            *byte = self.inverse(*byte);
        }
    }
}
