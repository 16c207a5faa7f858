//! The state, an array of four columns of four bytes, and the steps of a round.
ghost use Rattle.std.specs.Prelude.{◌≡◌};
ghost use Rattle.fields.specs.Bytes.{byte};
ghost use Rattle.cipher.specs.Asking.{CanAsk, AskedTimes};
ghost use Rattle.cipher.specs.Fips197.{◌•◌, word, word_bytes, each_byte, each_column, shift_rows, inv_shift_rows, mix_column, mix_columns, inv_mix_columns, add_round_key, state, state_bytes};
ghost use Rattle.cipher.specs.Layout.{columns_state, byte_row, by_matrix};

use crate::substitution::Substitution;
use crate::words::{Word, add};
use fields::{Byte, Field};
use routes::Route;

/// The state, or a round key: four columns, filled column by column.
pub type State = [Word; 4];

/// The state of sixteen bytes.
pub(crate) fn from_bytes(b: [u8; 16]) -> State
    ensures { columns_state result ≡ state b }
{
    [
        [b[0], b[1], b[2], b[3]],
        [b[4], b[5], b[6], b[7]],
        [b[8], b[9], b[10], b[11]],
        [b[12], b[13], b[14], b[15]],
    ]
}

/// The word itself. Its contract says that it is the bytes of a word, so each below 256, which a proof needs where bytes are only moved: of a
/// slice's elements it knows that, and of an array's not.
fn plain(w: Word) -> Word
    ensures { result ≡ word_bytes (word w) }
{
    let bytes = w.as_slice();
    [bytes[0], bytes[1], bytes[2], bytes[3]]
}

/// The sixteen bytes of a state.
pub(crate) fn to_bytes(s: State) -> [u8; 16]
    ensures { result ≡ state_bytes (columns_state s) }
{
    let a = plain(s[0]);
    let b = plain(s[1]);
    let c = plain(s[2]);
    let d = plain(s[3]);
    // Written out: with a copy of `as_flattened` a byte of a run takes 26 instructions more, 533 on the bit tower, where plain C takes 505.
    [
        a[0], a[1], a[2], a[3], b[0], b[1], b[2], b[3], c[0], c[1], c[2], c[3], d[0], d[1], d[2],
        d[3],
    ]
}

/// SHIFTROWS: row r moves r places to the left.
pub(crate) fn shift_rows(s: State) -> State
    ensures { columns_state result ≡ shift_rows (columns_state s) }
{
    let [a, b, c, d] = s;
    [
        [a[0], b[1], c[2], d[3]],
        [b[0], c[1], d[2], a[3]],
        [c[0], d[1], a[2], b[3]],
        [d[0], a[1], b[2], c[3]],
    ]
}

/// INVSHIFTROWS: row r moves r places to the right, which is to the left where the columns stand the other way round.
pub(crate) fn inv_shift_rows(s: State) -> State
    ensures { columns_state result ≡ inv_shift_rows (columns_state s) }
{
    let [a, b, c, d] = s;
    let [a, d, c, b] = shift_rows([a, d, c, b]);
    [a, b, c, d]
}

/// ADDROUNDKEY: the sum of the state and a round key.
pub(crate) fn add_round_key(s: State, k: State) -> State
    ensures { columns_state result ≡ add_round_key (columns_state s) (columns_state k) }
{
    [
        add(s[0], k[0]),
        add(s[1], k[1]),
        add(s[2], k[2]),
        add(s[3], k[3]),
    ]
}

/// The product of a constant and a byte. The constant stands second, so that its bits are known where the product is worked out.
fn times<const P: u8>(a: Byte) -> Byte
    ensures { result ≡ byte P • a }
{
    a.product(Byte::from(P))
}

/// p·a + q·b + r·c + s·d.
fn row<const P: u8, const Q: u8, const R: u8, const S: u8>(
    a: Byte,
    b: Byte,
    c: Byte,
    d: Byte,
) -> Byte
    ensures { result ≡ byte_row (byte P) (byte Q) (byte R) (byte S) a b c d }
{
    times::<P>(a)
        .sum(times::<Q>(b))
        .sum(times::<R>(c))
        .sum(times::<S>(d))
}

/// A column times the matrix whose rows are P, Q, R, S and its rotations.
fn mixed<const P: u8, const Q: u8, const R: u8, const S: u8>(w: Word) -> Word
    ensures { result ≡ word_bytes (by_matrix (byte P) (byte Q) (byte R) (byte S) (word w)) }
{
    let a = Byte::from(w[0]);
    let b = Byte::from(w[1]);
    let c = Byte::from(w[2]);
    let d = Byte::from(w[3]);
    [
        u8::from(row::<P, Q, R, S>(a, b, c, d)),
        u8::from(row::<P, Q, R, S>(b, c, d, a)),
        u8::from(row::<P, Q, R, S>(c, d, a, b)),
        u8::from(row::<P, Q, R, S>(d, a, b, c)),
    ]
}

/// MIXCOLUMNS at a column: where a, b, c, d are its bytes in turn, 02·(a + b) + b + c + d, which is 02·a + 03·b + c + d. The four bytes are
/// worked on at once, in a number of 32 bits.
fn mixed_forward(w: Word) -> Word
    ensures { result ≡ word_bytes (mix_column (word w)) }
{
    let v = u32::from_le_bytes(plain(w));
    let one = v >> 8 ^ v << 24;
    let two = v >> 16 ^ v << 16;
    let three = v >> 24 ^ v << 8;
    let sum = v ^ one;
    let high = sum >> 7 & 0x0101_0101;
    let doubled = (sum & 0x7F7F_7F7F) << 1 ^ high ^ high << 1 ^ high << 3 ^ high << 4;
    (doubled ^ one ^ two ^ three).to_le_bytes()
}

/// MIXCOLUMNS
pub(crate) fn mix_columns(s: State) -> State
    ensures { columns_state result ≡ mix_columns (columns_state s) }
{
    s.map(mixed_forward)
}

/// INVMIXCOLUMNS
pub(crate) fn inv_mix_columns(s: State) -> State
    ensures { columns_state result ≡ inv_mix_columns (columns_state s) }
{
    s.map(mixed::<0x0e, 0x0b, 0x0d, 0x09>)
}

/// SUBBYTES or INVSUBBYTES, by one call of the route.
pub(crate) fn sub_bytes<S: Substitution, R: Route>(route: &mut R, s: State) -> State
    requires { CanAsk R.Route.tally route.old 1 }
    ensures value { columns_state result ≡ each_column (each_byte S.at) (columns_state s) }
    ensures asked { AskedTimes R.Route.tally R.Route.name route.old route.new 1 }
{
    let mut bytes = to_bytes(s);
    S::substitute(route, &mut bytes);
    from_bytes(bytes)
}
