//! Engines on every route, held against published values.
use crate::everywhere::on_every_route;
use cipher::{Engine, KeySchedule, Word};
use routes::{AnyRoute, Refusal, Route, RouteName};

/// An engine on the named route, with the tally 0 and this key.
fn keyed(name: RouteName, key: &[u8]) -> Result<Engine<AnyRoute>, Refusal> {
    let mut engine = Engine::new(AnyRoute::new(name, 0)?);
    engine.set_key(key)?;
    Ok(engine)
}

/// Whether the schedule of a key on a route has these words and no more.
fn expands_on(name: RouteName, key: &[u8], words: &[Word]) -> Result<bool, Refusal> {
    let mut route = AnyRoute::new(name, 0)?;
    let schedule = KeySchedule::expand(&mut route, key)?;
    Ok((0..=words.len()).all(|i| schedule.word(i) == words.get(i).copied()))
}

/// Whether a call of an engine under a key on a route turns a block into another.
fn turns_on<F: FnOnce(&mut Engine<AnyRoute>, &mut [u8]) -> Result<(), Refusal>>(
    name: RouteName,
    key: &[u8],
    from: &[u8; 16],
    to: &[u8; 16],
    turn: F,
) -> Result<bool, Refusal>
    requires { F.IsAlwaysCallable turn }
{
    let mut engine = keyed(name, key)?;
    let mut block = *from;
    turn(&mut engine, &mut block)?;
    Ok(block == *to)
}

/// Whether the schedule of a key is these words on every route.
pub fn expands(key: &[u8], words: &[Word]) -> bool {
    on_every_route(|name| expands_on(name, key, words)) == Ok(true)
}

/// Whether a block encrypts to this cipher on every route.
pub fn encrypts(key: &[u8], block: &[u8; 16], cipher: &[u8; 16]) -> bool {
    on_every_route(|name| turns_on(name, key, block, cipher, Engine::encrypt)) == Ok(true)
}

/// Whether a cipher decrypts to this block on every route.
pub fn decrypts(key: &[u8], cipher: &[u8; 16], block: &[u8; 16]) -> bool {
    on_every_route(|name| turns_on(name, key, cipher, block, Engine::decrypt)) == Ok(true)
}

/// Whether a key is refused on a route by its length.
fn refused_on(name: RouteName, key: &[u8]) -> bool {
    keyed(name, key).err() == Some(Refusal::KeyLength(key.len() as u64))
}

/// Whether keys of 0 and 15 bytes are refused on every route, each with its length.
pub fn short_keys_are_refused() -> bool {
    RouteName::ALL.iter().all(|name| refused_on(*name, &[]) && refused_on(*name, &[0; 15]))
}
