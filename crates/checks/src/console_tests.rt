//! What lines are read as, and how answers and errors are written.
use console::{Answer, Command, Failure, LoneVerb, Misread, RunVerb, Unfit, Verb, bytes, read};
use routes::Refusal;
use sessions::Used;
use std::alloc::Global;
use std::test::Fail;

/// Whether a line asks to skip so many numbers.
fn skips(heap: Global, line: &str, n: u64) -> Result<bool, Fail> {
    match read(heap, line) {
        Ok(Some(Command::SkipNumbers(m))) => Ok(m == n),
        Err(Misread::Memory(error)) => Err(error.into()),
        _ => Ok(false),
    }
}

/// Whether a line is passed over.
fn passed_over(heap: Global, line: &str) -> Result<bool, Fail> {
    Ok(read(heap, line)?.is_none())
}

#[test]
fn numbers_are_decimal_and_below_two_to_the_64(rt: HostRuntime) -> Result<(), Fail> {
    let heap = rt.alloc();
    assert!(rt; skips(heap, "skip 12", 12)?);
    assert!(rt; skips(heap, "  skip   18446744073709551615 ", u64::MAX)?);
    assert!(rt; !skips(heap, "skip 18446744073709551616", 0)?);
    assert!(rt; !skips(heap, "skip +1", 1)?);
    assert!(rt; !skips(heap, "skip 1 2", 1)?);
    Ok(())
}

#[test]
fn blank_lines_and_remarks_are_passed_over(rt: HostRuntime) -> Result<(), Fail> {
    let heap = rt.alloc();
    assert!(rt; passed_over(heap, "")?);
    assert!(rt; passed_over(heap, " \t")?);
    assert!(rt; passed_over(heap, "# skip 1")?);
    assert!(rt; !passed_over(heap, "close")?);
    Ok(())
}

#[test]
fn answers_are_written_as_lines(rt: HostRuntime) -> Result<(), Fail> {
    let heap = rt.alloc();
    let run = Vec::from_slice(heap, &[0x0a, 0xff])?;
    let covered = Answer::Covered(Used { first: 7, count: 1 }, run).to_string(heap)?;
    assert_eq!(rt; covered.as_str(), "taken 7 1 0aff");
    let empty = Answer::Block(Vec::new(heap)).to_string(heap)?;
    assert_eq!(rt; empty.as_str(), "taken -");
    let refused = Failure::Refused(Refusal::Remaining(3)).to_string(heap)?;
    assert_eq!(rt; refused.as_str(), "refused 5 3");
    Ok(())
}

#[test]
fn errors_say_what_was_expected(rt: HostRuntime) -> Result<(), Fail> {
    let heap = rt.alloc();
    let form = Misread::Misfit(Verb::OnRun(RunVerb::Cover)).to_string(heap)?;
    assert_eq!(rt;
        form.as_str(),
        "expected cover HEX, with hexadecimal digits, two a byte, or - for no bytes"
    );
    let alone = Misread::Misfit(Verb::Alone(LoneVerb::Close)).to_string(heap)?;
    assert_eq!(rt; alone.as_str(), "expected nothing after close");
    let unfit = Unfit::SessionThere.to_string(heap)?;
    assert_eq!(rt;
        unfit.as_str(),
        "expected no session: close the one that is open first"
    );
    Ok(())
}

#[test]
fn bytes_are_two_digits_each(rt: HostRuntime) -> Result<(), Fail> {
    let heap = rt.alloc();
    let mixed = bytes(heap, "0aFf")?;
    assert!(rt; mixed.is_some_and(|v| v.as_slice() == [0x0a, 0xff].as_slice()));
    let none = bytes(heap, "")?;
    assert!(rt; none.is_some_and(|v| v.is_empty()));
    assert!(rt; bytes(heap, "0af")?.is_none());
    assert!(rt; bytes(heap, "0g")?.is_none());
    Ok(())
}
