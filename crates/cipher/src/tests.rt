//! What a reader would want to see of the engine.
use crate::*;
use routes::{AnyRoute, CAP, Power, Refusal, Route, RouteName};
use std::test::Fail;

#[test]
fn a_block_comes_back_on_another_route(rt: HostRuntime) -> Result<(), Fail> {
    let key = [7; 24];
    let mut sender = Engine::new(AnyRoute::new(RouteName::Table, 0)?);
    let mut reader = Engine::new(AnyRoute::new(RouteName::BitTower, 0)?);
    sender.set_key(&key)?;
    reader.set_key(&key)?;
    let mut block = [3; 16];
    sender.encrypt(&mut block)?;
    assert!(rt; block != [3; 16]);
    reader.decrypt(&mut block)?;
    assert!(rt; block == [3; 16]);
    assert_eq!(rt; sender.retire().tally(), 8 + 12);
    assert_eq!(rt; reader.retire().tally(), 8 + 12);
    Ok(())
}

#[test]
fn a_block_is_refused_without_a_key_and_by_its_length(rt: HostRuntime) -> Result<(), Fail> {
    let mut engine = Engine::new(Power::new((), 0)?);
    let mut short = [1; 15];
    assert!(rt; engine.encrypt(&mut short) == Err(Refusal::NoKey));
    engine.set_key(&[0; 16])?;
    assert!(rt; engine.decrypt(&mut short) == Err(Refusal::BlockLength(15)));
    assert!(rt; short == [1; 15]);
    assert_eq!(rt; engine.retire().tally(), 10);
    Ok(())
}

#[test]
fn keys_at_the_edge_of_the_tally(rt: HostRuntime) -> Result<(), Fail> {
    let mut full = Engine::new(Power::new((), CAP - 10)?);
    assert!(rt; full.set_key(&[0; 16]) == Ok(()));
    assert!(rt; full.encrypt(&mut [0; 16]) == Err(Refusal::Inversions(0)));
    let mut short = Engine::new(Power::new((), CAP - 9)?);
    assert!(rt; short.set_key(&[0; 16]) == Err(Refusal::Inversions(9)));
    assert!(rt; short.set_key(&[0; 24]) == Ok(()));
    assert_eq!(rt; short.retire().tally(), CAP - 1);
    Ok(())
}
