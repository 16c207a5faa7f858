//! Words: arrays of four bytes.
ghost use Rattle.std.specs.Prelude.{◌≡◌};
ghost use Rattle.cipher.specs.Asking.{CanAsk, AskedTimes};
ghost use Rattle.cipher.specs.Fips197.{word, word_bytes, word_sum, sub_word};

use crate::substitution::{SBox, Substitution};
use routes::Route;

/// A word, or a column of the state.
pub type Word = [u8; 4];

/// The sum of two words, byte by byte.
pub(crate) fn add(a: Word, b: Word) -> Word
    ensures { result ≡ word_bytes (word_sum (word a) (word b)) }
{
    [a[0] ^ b[0], a[1] ^ b[1], a[2] ^ b[2], a[3] ^ b[3]]
}

/// The word with each byte taken through the S-box, by one call of the route on its bytes followed by twelve bytes 00.
pub(crate) fn sub_word<R: Route>(route: &mut R, w: Word) -> Word
    requires { CanAsk R.Route.tally route.old 1 }
    ensures value { result ≡ word_bytes (sub_word (word w)) }
    ensures asked { AskedTimes R.Route.tally R.Route.name route.old route.new 1 }
{
    let mut bytes = [w[0], w[1], w[2], w[3], 0, 0, 0, 0, 0, 0, 0, 0, 0, 0, 0, 0];
    SBox::substitute(route, &mut bytes);
    [bytes[0], bytes[1], bytes[2], bytes[3]]
}
