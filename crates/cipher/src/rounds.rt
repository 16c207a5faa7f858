//! The cipher and the inverse cipher on a state, over any route.
ghost use Rattle.std.specs.Prelude.{◌≡◌, ℕ, List};
ghost use Rattle.cipher.specs.Asking.{CanAsk, AskedTimes};
ghost use Rattle.cipher.specs.Fips197.{Word, State, add_round_key, sub_bytes, shift_rows, mix_columns, inv_sub_bytes, inv_shift_rows, inv_mix_columns, cipher, inv_cipher};
ghost use Rattle.cipher.specs.Layout.{columns_state};
ghost use Rattle.cipher.specs.Schedules.{schedule_words, schedule_rounds};

use crate::schedule::KeySchedule;
use crate::state::{
    State, add_round_key, inv_mix_columns, inv_shift_rows, mix_columns, shift_rows, sub_bytes,
};
use crate::substitution::{InvSBox, SBox};
use routes::Route;

/// One of the rounds before the last.
fn one_round<R: Route>(route: &mut R, key: State, s: State) -> State
    requires { CanAsk R.Route.tally route.old 1 }
    ensures value { columns_state result ≡ add_round_key (mix_columns (shift_rows (sub_bytes (columns_state s)))) (columns_state key) }
    ensures asked { AskedTimes R.Route.tally R.Route.name route.old route.new 1 }
{
    add_round_key(mix_columns(shift_rows(sub_bytes::<SBox, R>(route, s))), key)
}

/// One of the rounds of the inverse cipher before its last. The standard has its steps in another order, so it is no twin of `one_round`.
fn one_round_back<R: Route>(route: &mut R, key: State, s: State) -> State
    requires { CanAsk R.Route.tally route.old 1 }
    ensures value { columns_state result ≡ inv_mix_columns (add_round_key (inv_sub_bytes (inv_shift_rows (columns_state s))) (columns_state key)) }
    ensures asked { AskedTimes R.Route.tally R.Route.name route.old route.new 1 }
{
    let t = sub_bytes::<InvSBox, R>(route, inv_shift_rows(s));
    inv_mix_columns(add_round_key(t, key))
}

/// A direction of the cipher: CIPHER or INVCIPHER. Each has its own loop: one goes over the round keys backwards, with its steps in another order.
pub(crate) trait Direction {
    ghost turned: { State → ℕ → List Word → State };

    /// Takes a state through it, by one call of the route a round.
    fn turn<R: Route>(route: &mut R, schedule: &KeySchedule, s: State) -> State
        requires { CanAsk R.Route.tally route.old (schedule_rounds schedule.now) }
        ensures value { columns_state result ≡ turned (columns_state s) (schedule_rounds schedule.now) (schedule_words schedule.now) }
        ensures asked { AskedTimes R.Route.tally R.Route.name route.old route.new (schedule_rounds schedule.now) };
}

/// CIPHER: round key 0, the rounds in order, and a last round without MIXCOLUMNS.
pub(crate) struct Cipher;

impl Direction for Cipher {
    ghost turned = { cipher };

    fn turn<R: Route>(route: &mut R, schedule: &KeySchedule, s: State) -> State {
        let [first, inner @ .., last] = schedule.round_keys() else {
            unreachable!()
        };
        let mut t = add_round_key(s, *first);
        for key in inner {
            // By a variable: a result put straight into `t` is not covered by the borrow checker.
            let next = one_round(route, *key, t);
            t = next;
        }
        add_round_key(shift_rows(sub_bytes::<SBox, R>(route, t)), *last)
    }
}

/// INVCIPHER: the last round key, the rounds backwards, and a last round without INVMIXCOLUMNS.
pub(crate) struct InvCipher;

impl Direction for InvCipher {
    ghost turned = { inv_cipher };

    fn turn<R: Route>(route: &mut R, schedule: &KeySchedule, s: State) -> State {
        let [last, inner @ .., first] = schedule.round_keys() else {
            unreachable!()
        };
        let mut t = add_round_key(s, *first);
        for key in inner.iter().rev() {
            let next = one_round_back(route, *key, t);
            t = next;
        }
        add_round_key(sub_bytes::<InvSBox, R>(route, inv_shift_rows(t)), *last)
    }
}
