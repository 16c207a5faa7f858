//! The inverse of a byte by way of the pile of three pairs over bits, whose elements are packed into numbers. A struct of eight bits does the same, and
//! where it is passed on the compiler of the older kit joined its bits into wide numbers, which cost it most of its speed; today's does not, and no
//! route goes by these functions.
//!
//! The levels of two, four and eight bits stay functions of their own: one for all levels would need a width that is computed from that of the
//! level below, and a const argument can't be.
ghost use Rattle.std.specs.Prelude.{◌≡◌, ◌<◌};
ghost use Rattle.fields.specs.Pairs.{pair};
ghost use Rattle.fields.specs.Towers.{make_tower};
ghost use Rattle.routes.specs.Inverting.{Inverts};
ghost use Rattle.routes.specs.PackedTower.{make_two, two_sum, two_product, two_inverse, make_four, four_sum, four_product, four_inverse, tower_inverse};

use crate::additive_power::sum_of_columns;

/// The images of 01, 02, 04, .. 80 in the tower.
const INTO: [u8; 8] = [0x01, 0x41, 0x66, 0x6C, 0x56, 0x9A, 0x58, 0xC4];

/// The bytes from which the elements 01, 02, 04, .. 80 come.
const BACK: [u8; 8] = [0x01, 0xBC, 0x5C, 0xB0, 0xF3, 0xE7, 0x03, 0xDF];

/// The sum of two pairs of bits.
fn sum2(a: u8, b: u8) -> u8
    requires first { a < 4 }
    requires second { b < 4 }
    ensures made { make_two result ≡ two_sum (make_two a) (make_two b) }
    ensures low { result < 4 }
{
    a ^ b
}

/// The product of two pairs of bits.
fn product2(a: u8, b: u8) -> u8
    requires first { a < 4 }
    requires second { b < 4 }
    ensures made { make_two result ≡ two_product (make_two a) (make_two b) }
    ensures low { result < 4 }
{
    let highs = a >> 1 & b >> 1;
    let mixed = a >> 1 & b & 1 ^ a & b >> 1 & 1;
    (highs ^ mixed) << 1 | (highs ^ a & b & 1)
}

/// The inverse of a pair of bits.
fn inverse2(a: u8) -> u8
    requires { a < 4 }
    ensures made { make_two result ≡ two_inverse (make_two a) }
    ensures low { result < 4 }
{
    // The inverse of h and l is h and h + l, so 2 and 3 change places.
    a ^ a >> 1
}

/// The pair of two pairs of bits.
fn join4(high: u8, low: u8) -> u8
    requires first { high < 4 }
    requires second { low < 4 }
    ensures made { make_four result ≡ pair (make_two high) (make_two low) }
    ensures low { result < 16 }
{
    high * 4 + low
}

/// The sum of two elements of four bits.
fn sum4(a: u8, b: u8) -> u8
    requires first { a < 16 }
    requires second { b < 16 }
    ensures made { make_four result ≡ four_sum (make_four a) (make_four b) }
    ensures low { result < 16 }
{
    a ^ b
}

/// The product of two elements of four bits.
fn product4(a: u8, b: u8) -> u8
    requires first { a < 16 }
    requires second { b < 16 }
    ensures made { make_four result ≡ four_product (make_four a) (make_four b) }
    ensures low { result < 16 }
{
    let highs = product2(a / 4, b / 4);
    let mixed = sum2(product2(a / 4, b % 4), product2(a % 4, b / 4));
    let lows = product2(a % 4, b % 4);
    join4(sum2(highs, mixed), sum2(product2(2, highs), lows))
}

/// The inverse of an element of four bits.
fn inverse4(a: u8) -> u8
    requires { a < 16 }
    ensures made { make_four result ≡ four_inverse (make_four a) }
    ensures low { result < 16 }
{
    let high = a / 4;
    let low = a % 4;
    let rest = sum2(product2(high, low), product2(low, low));
    let scale = inverse2(sum2(product2(2, product2(high, high)), rest));
    join4(product2(high, scale), product2(sum2(high, low), scale))
}

/// The pair of two elements of four bits.
fn join8(high: u8, low: u8) -> u8
    requires first { high < 16 }
    requires second { low < 16 }
    ensures { make_tower result ≡ pair (make_four high) (make_four low) }
{
    high * 16 + low
}

/// The inverse of an element of eight bits.
fn inverse8(a: u8) -> u8
    ensures { make_tower result ≡ tower_inverse (make_tower a) }
{
    let high = a / 16;
    let low = a % 16;
    let rest = sum4(product4(high, low), product4(low, low));
    let scale = inverse4(sum4(product4(8, product4(high, high)), rest));
    join8(product4(high, scale), product4(sum4(high, low), scale))
}

/// The inverse of a byte, by way of the tower.
pub(crate) fn tower_inverse(a: u8) -> u8
    ensures { Inverts a result }
{
    let image = sum_of_columns(&INTO, a);
    let inverse = inverse8(image);
    sum_of_columns(&BACK, inverse)
}
