//! The product of two polynomials over bits, of degree below 8, modulo a third: without a branch or a table.
ghost use Rattle.std.specs.Prelude.{◌≡◌, ◌+◌, ◌*◌, ◌^◌, ◌<◌, ◌≤◌};
ghost use Rattle.fields.specs.Polynomials.{Degree, product_modulo, times_x};

/// The byte where the bit is 1, and 00 where it is 0.
fn keep(byte: u8, bit: u8) -> u8
    requires { bit < 2 }
    ensures { result ≡ bit * byte }
{
    byte & 0u8.wrapping_sub(bit)
}

/// x·a modulo `MODULUS`, a polynomial of degree `DEGREE`.
fn times_x<const DEGREE: u32, const MODULUS: u16>(a: u8) -> u8
    requires degree { Degree DEGREE MODULUS }
    requires positive { 0 < DEGREE }
    requires few { DEGREE ≤ 8 }
    requires low { a < 2 ^ DEGREE }
    ensures { result ≡ times_x DEGREE MODULUS a }
{
    (a << 1) ^ keep((MODULUS & 0xff) as u8, a >> (DEGREE - 1))
}

/// a·b modulo `MODULUS`, a polynomial of degree `DEGREE`.
///
/// The powers of x times a depend on a alone: in a loop over many b they are worked out once.
pub(crate) fn multiply<const DEGREE: u32, const MODULUS: u16>(a: u8, b: u8) -> u8
    requires degree { Degree DEGREE MODULUS }
    requires positive { 0 < DEGREE }
    requires few { DEGREE ≤ 8 }
    requires low { a < 2 ^ DEGREE }
    ensures value { result ≡ product_modulo DEGREE MODULUS a b }
    ensures bound { result < 2 ^ DEGREE }
{
    let mut product = 0;
    let mut shifted = a;
    // i is a power of x and no place in a list.
    for i in 0..DEGREE {
        product ^= keep(shifted, b >> i & 1);
        shifted = times_x::<DEGREE, MODULUS>(shifted);
    }
    product
}

/// a·b modulo x^8 + 1: the sum of a rotated left by each place at which b has a bit.
pub fn cyclic_product(a: u8, b: u8) -> u8
    ensures { result ≡ product_modulo 8 0x101 a b }
{
    multiply::<8, 0x101>(a, b)
}
