ghost use Rattle.std.specs.Prelude.{◌≡◌};
ghost use Rattle.fields.specs.Laws.{FieldLaws};

/// A field.
pub trait Field: Copy + Eq {
    ghost zero: { Self };

    ghost one: { Self };

    ghost marker: { Self };

    ghost sum: { Self → Self → Self };

    ghost product: { Self → Self → Self };

    ghost inverse: { Self → Self };

    /// The neutral element of the sum.
    fn zero() -> Self
        ensures { result ≡ zero };

    /// The neutral element of the product.
    fn one() -> Self
        ensures { result ≡ one };

    /// One named element m, such that X·X = X + m has no root in the field.
    fn marker() -> Self
        ensures { result ≡ marker };

    /// The sum of two elements.
    fn sum(self, other: Self) -> Self
        ensures { result ≡ sum self other };

    /// The product of two elements.
    fn product(self, other: Self) -> Self
        ensures { result ≡ product self other };

    /// The element whose product with this one is one; zero for zero.
    fn inverse(self) -> Self
        ensures { result ≡ inverse self };

    /// Whether two elements are the same, as `==` tells.
    fn same(self, other: Self) -> bool
        ensures { result ≡ Self.PartialEq.eq self other }
    {
        self == other
    }

    ghost laws: { FieldLaws zero one marker sum product inverse Self.PartialEq.eq };
}
