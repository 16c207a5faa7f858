//! The inverse of a byte by way of the pair over nibbles, with both maps as sums over bits. No route goes by it: the route is the formula that is
//! generic over fields.
ghost use Rattle.routes.specs.Inverting.{Inverts};

use crate::additive_power::sum_of_columns;
use fields::{ByteMap, Field, Nibble, NibblePair, Pair};

/// The images of 01, 02, 04, .. 80 in the pair over nibbles.
const INTO: [u8; 8] = [0x01, 0x2E, 0x49, 0x43, 0x35, 0xD0, 0x3D, 0xE9];

/// The bytes from which the elements 01, 02, 04, .. 80 come.
const BACK: [u8; 8] = [0x01, 0x5C, 0xE0, 0x50, 0x1F, 0xEE, 0x55, 0x6A];

/// The inverse of a byte, by way of the pair over nibbles.
pub(crate) fn nibble_pair_inverse(a: u8) -> u8
    ensures { Inverts a result }
{
    let image = sum_of_columns(&INTO, a);
    let element: NibblePair = Pair {
        high: Nibble::high(image),
        low: Nibble::low(image),
    };
    let inverse = element.inverse();
    sum_of_columns(&BACK, inverse.bits())
}
