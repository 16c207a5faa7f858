//! KEYEXPANSION: the words of a key's schedule.
ghost use Rattle.std.specs.Prelude.{◌≡◌, ◌-◌, ◌/◌, ◌<◌, true, length, take, drop};
ghost use Rattle.cipher.specs.Asking.{CanAsk, AskedTimes};
ghost use Rattle.cipher.specs.Fips197.{word, word_bytes, words, rot_word, rcon, scheduled, key_schedule};
ghost use Rattle.cipher.specs.Keys.{key_length, key_cost, word_cost, schedule_length, zero_arrays};
ghost use Rattle.cipher.specs.Layout.{word_lists, in_a_row};

use crate::words::{Word, add, sub_word};
use fields::{Byte, Field};
use routes::Route;

/// The word with its bytes one place on: [a1, a2, a3, a0].
fn rot_word(a: Word) -> Word
    ensures { word result ≡ rot_word (word a) }
{
    [a[1], a[2], a[3], a[0]]
}

/// The round constant j: x^(j-1) and three bytes 00.
fn round_constant(j: usize) -> Word
    ensures { result ≡ word_bytes (rcon j) }
{
    let mut x = Byte::from(1);
    for _k in 1..j {
        x = Byte::from(2).product(x);
    }
    [u8::from(x), 0, 0, 0]
}

/// What becomes of word i - 1 before word i - nk is added to it.
fn prepared<R: Route>(route: &mut R, temp: Word, nk: usize, i: usize) -> Word
    requires divides { 0 < nk }
    requires room { CanAsk R.Route.tally route.old (word_cost nk i) }
    ensures value { word result ≡ scheduled nk i (word temp) }
    ensures asked { AskedTimes R.Route.tally R.Route.name route.old route.new (word_cost nk i) }
{
    if i % nk == 0 {
        return add(sub_word(route, rot_word(temp)), round_constant(i / nk));
    }
    if nk > 6 && i % nk == 4 {
        return sub_word(route, temp);
    }
    temp
}

/// The words of a key, followed by words of bytes 00.
fn key_first(key: &[u8]) -> [Word; 60]
    requires { key_length (length key.now) ≡ true }
    ensures value { take (length key.now / 4) result ≡ word_lists (words (length key.now / 4) key.now) }
    ensures bytes { in_a_row (take (length key.now / 4) result) ≡ key.now }
    ensures rest { drop (length key.now / 4) result ≡ zero_arrays (60 - length key.now / 4) }
{
    let mut words = [[0; 4]; 60];
    let (front, _) = key.as_chunks::<4>();
    words[..front.len()].copy_from_slice(front);
    words
}

/// The words of a key's schedule, followed by words of bytes 00.
pub(crate) fn expanded<R: Route>(route: &mut R, key: &[u8]) -> [Word; 60]
    requires size { key_length (length key.now) ≡ true }
    requires room { CanAsk R.Route.tally route.old (key_cost (length key.now)) }
    ensures value { take (schedule_length (length key.now / 4)) result ≡ word_lists (key_schedule (length key.now / 4) key.now) }
    ensures bytes { in_a_row (take (length key.now / 4) result) ≡ key.now }
    ensures rest { drop (schedule_length (length key.now / 4)) result ≡ zero_arrays (60 - schedule_length (length key.now / 4)) }
    ensures asked { AskedTimes R.Route.tally R.Route.name route.old route.new (key_cost (length key.now)) }
{
    let nk = key.len() / 4;
    let mut words = key_first(key);
    // By index: each word is made of two that stand before it in the same array.
    for i in nk..4 * (nk + 7) {
        let temp = prepared(route, words[i - 1], nk, i);
        words[i] = add(words[i - nk], temp);
    }
    words
}
