//! How a refusal is shown.
use routes::Refusal;
use std::test::Fail;

#[test]
fn refusals_are_shown_with_number_and_value(rt: HostRuntime) -> Result<(), Fail> {
    let heap = rt.alloc();
    let remaining = Refusal::Remaining(3).to_string(heap)?;
    assert_eq!(rt;
        remaining.as_str(),
        "refused 5 3: no more counter numbers than that remain"
    );
    let no_key = Refusal::NoKey.to_string(heap)?;
    assert_eq!(rt; no_key.as_str(), "refused 2 0: a key has to be set first");
    Ok(())
}
