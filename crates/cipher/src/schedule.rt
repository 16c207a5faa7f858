//! The schedule of a key. The struct stands alone in its file, since the definitions of specs/ that its functions cite name it.
ghost use Rattle.std.specs.Prelude.{◌≡◌, ◌*◌, true};
ghost use Rattle.cipher.specs.Keys.{key_length, ScheduleHeld};

use crate::words::Word;

pub mod expand;

/// The expanded schedule of a key: 4·(rounds + 1) words, the first of which are the key.
#[derive(Drop)]
pub struct KeySchedule {
    // Room for the longest schedule: the library has no heap.
    words: [Word; 60],
    key_words: usize,
    ghost sized: { key_length (4 * key_words) ≡ true },
    ghost expanded: { ScheduleHeld key_words words },
}
