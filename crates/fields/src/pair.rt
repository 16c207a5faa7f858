//! The quadratic extension of a field by a root of X·X = X + marker.

ghost use Rattle.std.specs.Prelude.{◌≡◌, ℕ, ◌+◌, ◌*◌, ◌/◌, ◌%◌, ◌<◌, ◌≤◌};
ghost use Rattle.fields.specs.Pairs.{pair_zero, pair_one, pair_marker, pair_sum, pair_product, pair_norm, pair_inverse};
ghost use Rattle.fields.specs.PairLaws.{pair_laws};

use crate::field::Field;

/// The element `high`·X + `low`, where X·X = X + marker.
#[derive(Clone, Copy, PartialEq, Eq, Debug)]
pub struct Pair<F> {
    /// What stands with X.
    pub high: F,
    /// What stands alone.
    pub low: F,
}

impl<F> Pair<F> {
    /// The pair whose halves are read off the two digits of `n` in a base, the high one first.
    pub(crate) fn from_digits<H: Fn(u8) -> F>(n: u8, base: u8, half: H) -> Pair<F>
        requires positive { 0 < base }
        requires callable { H.IsAlwaysCallable half }
        ensures high { H.post half (n / base) result.high }
        ensures low { H.post half (n % base) result.low }
    {
        Pair {
            high: half(n / base),
            low: half(n % base),
        }
    }

    /// The number whose two digits in a base are read off the halves.
    pub(crate) fn digits<H: Fn(F) -> u8>(self, base: u8, half: H) -> u8
        requires few { base ≤ 16 }
        requires callable { H.IsAlwaysCallable half }
        requires below { (x : F) (digit : ℕ) → H.post half x digit → digit < base }
        ensures { (high low : ℕ) × H.post half self.high high × H.post half self.low low × (result ≡ high * base + low) }
    {
        half(self.high) * base + half(self.low)
    }
}

impl<F: Field> Pair<F> {
    /// The product of the element and its conjugate: an element of `F`, and zero only at zero.
    fn norm(self) -> F
        ensures { result ≡ pair_norm F.Field.marker F.Field.sum F.Field.product self }
    {
        let highs = self.high.product(self.high);
        let mixed = self.high.product(self.low);
        let lows = self.low.product(self.low);
        F::marker().product(highs).sum(mixed.sum(lows))
    }
}

/// The field of the pairs, proved once for every `F`.
impl<F: Field> Field for Pair<F> {
    ghost zero = { pair_zero F.Field.zero };

    ghost one = { pair_one F.Field.zero F.Field.one };

    ghost marker = { pair_marker F.Field.zero F.Field.marker };

    ghost sum = { pair_sum F.Field.sum };

    ghost product = { pair_product F.Field.marker F.Field.sum F.Field.product };

    ghost inverse = { pair_inverse F.Field.marker F.Field.sum F.Field.product F.Field.inverse };

    ghost laws = { pair_laws F.Field.laws };

    fn zero() -> Pair<F> {
        Pair {
            high: F::zero(),
            low: F::zero(),
        }
    }

    fn one() -> Pair<F> {
        Pair {
            high: F::zero(),
            low: F::one(),
        }
    }

    fn marker() -> Pair<F> {
        Pair {
            high: F::marker(),
            low: F::zero(),
        }
    }

    fn sum(self, other: Pair<F>) -> Pair<F> {
        Pair {
            high: self.high.sum(other.high),
            low: self.low.sum(other.low),
        }
    }

    /// Multiplies out, and puts X + marker for X·X.
    fn product(self, other: Pair<F>) -> Pair<F> {
        let highs = self.high.product(other.high);
        let mixed = self
            .high
            .product(other.low)
            .sum(self.low.product(other.high));
        let lows = self.low.product(other.low);
        Pair {
            high: highs.sum(mixed),
            low: F::marker().product(highs).sum(lows),
        }
    }

    /// The conjugate over the norm; zero at zero.
    fn inverse(self) -> Pair<F> {
        let scale = self.norm().inverse();
        Pair {
            high: self.high.product(scale),
            low: self.high.sum(self.low).product(scale),
        }
    }
}
