//! What a reader would want to see of the values of sessions.
use sessions::{Given, SessionCall, Used};
use std::test::Fail;

#[test]
fn a_call_is_copied_with_its_run(rt: HostRuntime) -> Result<(), Fail> {
    let heap = rt.alloc();
    let call = SessionCall::Cover(Vec::from_slice(heap, &[0x0a, 0xff])?);
    match call.clone()? {
        SessionCall::Cover(run) => assert!(rt; run.as_slice() == [0x0a, 0xff].as_slice()),
        _ => assert!(rt; false),
    }
    Ok(())
}

#[test]
fn numbers_used_are_shown_first_and_count(rt: HostRuntime) -> Result<(), Fail> {
    let heap = rt.alloc();
    let used = Used { first: 7, count: 2 };
    assert_eq!(rt; Given::Used(used).to_string(heap)?.as_str(), "7 2");
    assert_eq!(rt; Given::Left(9).to_string(heap)?.as_str(), "9");
    Ok(())
}
