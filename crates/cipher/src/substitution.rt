//! The S-box and its inverse, sixteen bytes at a time, by one call of a route.
ghost use Rattle.std.specs.Prelude.{◌≡◌, ℕ, ◌<◌, slice_index};
ghost use Rattle.fields.specs.Bytes.{byte};
ghost use Rattle.fields.specs.declared.byte.Byte.{Byte};
ghost use Rattle.cipher.specs.Asking.{CanAsk, AskedTimes};
ghost use Rattle.cipher.specs.Fips197.{s_box, inv_s_box};
ghost use Rattle.cipher.specs.Layout.{affine_map};

use fields::cyclic_product;
use routes::Route;

/// The affine map of the S-box or of its inverse: times a constant modulo x^8 + 1, plus another.
fn affine<const FACTOR: u8, const OFFSET: u8>(b: u8) -> u8
    ensures { result ≡ affine_map FACTOR OFFSET (byte b).value }
{
    cyclic_product(b, FACTOR) ^ OFFSET
}

/// Takes each byte through an affine map.
fn affine_all<const FACTOR: u8, const OFFSET: u8>(bytes: &mut [u8; 16])
    ensures { (i : ℕ) → i < 16 → slice_index bytes.new i ≡ affine_map FACTOR OFFSET (byte (slice_index bytes.old i)).value }
{
    for byte in bytes.iter_mut() {
        *byte = affine::<FACTOR, OFFSET>(*byte);
    }
}

/// SBOX or INVSBOX, at sixteen bytes.
pub(crate) trait Substitution {
    ghost at: { Byte → Byte };

    /// Takes each byte through it, by one call of the route.
    fn substitute<R: Route>(route: &mut R, bytes: &mut [u8; 16])
        requires { CanAsk R.Route.tally route.old 1 }
        ensures boxed { (i : ℕ) → i < 16 → slice_index bytes.new i ≡ (at (byte (slice_index bytes.old i))).value }
        ensures asked { AskedTimes R.Route.tally R.Route.name route.old route.new 1 };
}

/// SBOX: the inverse, and then the affine map, times 1F and plus 63.
pub(crate) struct SBox;

impl Substitution for SBox {
    ghost at = { s_box };

    fn substitute<R: Route>(route: &mut R, bytes: &mut [u8; 16]) {
        route.invert(bytes);
        affine_all::<0x1F, 0x63>(bytes);
    }
}

/// INVSBOX: the inverse of the affine map, times 4A and plus 05, and then the inverse.
pub(crate) struct InvSBox;

impl Substitution for InvSBox {
    ghost at = { inv_s_box };

    fn substitute<R: Route>(route: &mut R, bytes: &mut [u8; 16]) {
        affine_all::<0x4A, 0x05>(bytes);
        route.invert(bytes);
    }
}
