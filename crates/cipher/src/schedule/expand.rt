//! Expanding a key, and reading its schedule.
ghost use Rattle.std.specs.Prelude.{◌≡◌, ℕ, ◌+◌, ◌*◌, ◌≤◌, true, [], length, take, slice_index_or, Some, None, MatchResult};
ghost use Rattle.routes.specs.Refusals.{numbers};
ghost use Rattle.routes.specs.Routes.{cap};
ghost use Rattle.cipher.specs.Fips197.{round_count, round_key};
ghost use Rattle.cipher.specs.Keys.{key_length, key_verdict, schedule_length};
ghost use Rattle.cipher.specs.Layout.{columns_state};
ghost use Rattle.cipher.specs.Schedules.{schedule_words, HasWord, Expanded};

use crate::expansion::expanded;
use crate::schedule::KeySchedule;
use crate::state::State;
use crate::words::Word;
use routes::{CAP, Refusal, Route};

/// Whether a key of so many bytes may be set at a tally.
fn admitted(length: usize, tally: u64) -> Result<(), Refusal>
    requires { tally ≤ cap }
    ensures { MatchResult result (λ _. key_verdict length tally ≡ None) (λ e. key_verdict length tally ≡ Some (numbers e)) }
{
    let cost = match length {
        16 => 10,
        24 => 8,
        32 => 13,
        _ => return Err(Refusal::KeyLength(length as u64)),
    };
    if tally + cost > CAP {
        return Err(Refusal::Inversions(CAP - tally));
    }
    Ok(())
}

impl KeySchedule {
    /// Expands a key over a route. Refused, before the route is asked: a key that is not of 16, 24 or 32 bytes, and one that would lift the tally
    /// above 2^40.
    pub fn expand<R: Route>(route: &mut R, key: &[u8]) -> Result<KeySchedule, Refusal>
        ensures { Expanded R.Route.tally R.Route.name key.now route.old route.new result }
    {
        admitted(key.len(), route.tally())?;
        Ok(KeySchedule {
            words: expanded(route, key),
            key_words: key.len() / 4,
        })
    }

    /// How many words the key has: 4, 6 or 8.
    pub fn key_words(&self) -> usize
        ensures value { result ≡ self.now.key_words }
        ensures size { key_length (4 * result) ≡ true }
    {
        self.key_words
    }

    /// How many rounds the cipher has under the key: 10, 12 or 14.
    pub fn rounds(&self) -> usize
        ensures { result ≡ round_count self.now.key_words }
    {
        self.key_words + 6
    }

    /// The words in use.
    fn in_use(&self) -> &[Word]
        ensures { result.now ≡ take (schedule_length self.now.key_words) self.now.words }
    {
        &self.words[..4 * (self.key_words + 7)]
    }

    /// Word i of the schedule, or none past its end.
    pub fn word(&self, i: usize) -> Option<Word>
        ensures { HasWord self.now i result }
    {
        self.in_use().get(i).copied()
    }

    /// The round keys, from that of round 0 to that of the last.
    pub(crate) fn round_keys(&self) -> &[State]
        ensures count { length result.now ≡ round_count self.now.key_words + 1 }
        ensures keys { (r : ℕ) → r ≤ round_count self.now.key_words → columns_state (slice_index_or result.now r []) ≡ round_key (schedule_words self.now) r }
    {
        let (keys, _) = self.in_use().as_chunks::<4>();
        keys
    }
}
