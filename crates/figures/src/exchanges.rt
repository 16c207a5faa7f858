//! Exchanges of two ends, held against published values: the transmitter on each route in turn, the gateway on the bit tower.
use crate::everywhere::on_every_route;
use routes::{AnyRoute, Refusal, RouteName};
use sessions::{
    Agreement, BothEnds, COUNTERS, End, ExchangeError, Given, SessionCall, Used, exchange,
};
use std::alloc::{AllocError, Global};

/// The prefix of the initial counter block in SP 800-38A, F.5.
const PREFIX: [u8; 12] = [
    0xf0, 0xf1, 0xf2, 0xf3, 0xf4, 0xf5, 0xf6, 0xf7, 0xf8, 0xf9, 0xfa, 0xfb,
];

/// The number in its last four bytes, FC FD FE FF.
const FIRST: u64 = 0xfcfdfeff;

/// An exchange under that prefix.
fn exchanged(
    heap: Global,
    name: RouteName,
    key: &[u8],
    at: u64,
    calls: Vec<SessionCall>,
) -> Result<BothEnds, ExchangeError> {
    let agreement = Agreement {
        key,
        prefix: &PREFIX,
        at: Some(at),
        start: 0,
    };
    exchange::<AnyRoute, AnyRoute>(heap, name, RouteName::BitTower, agreement, calls)
}

/// Whether something holds of both ends of an exchange that was carried out.
fn of_both<F: Fn(&End) -> bool>(ran: Result<BothEnds, ExchangeError>, holds: F) -> bool
    requires { F.IsAlwaysCallable holds }
{
    match ran {
        Ok(ends) => holds(&ends.transmitter) && holds(&ends.gateway),
        Err(_) => false,
    }
}

/// Whether the first call of an end left this run.
fn left(end: &End, run: &[u8]) -> bool {
    let first = end.answered.first().map(|answered| &answered.call);
    matches!(first, Some(SessionCall::Cover(bytes)) if bytes.as_slice() == run)
}

/// Whether a run is covered to another on a route, and comes back at the gateway.
fn covers_on(
    heap: Global,
    name: RouteName,
    key: &[u8],
    from: &[u8],
    to: &[u8],
) -> Result<bool, AllocError> {
    let run = Vec::from_slice(heap, from)?;
    let calls = vec![in heap; SessionCall::Cover(run)]?;
    match exchanged(heap, name, key, FIRST, calls) {
        Ok(ends) => Ok(left(&ends.transmitter, to) && left(&ends.gateway, from)),
        Err(_) => Ok(false),
    }
}

/// Whether a run is covered to another on every route, and comes back.
pub fn covers(heap: Global, key: &[u8], from: &[u8], to: &[u8]) -> Result<bool, AllocError> {
    on_every_route(|name| covers_on(heap, name, key, from, to))
}

/// Whether an end answered that 4,096 numbers were used, and then refused a run of 65,537 bytes.
fn took_the_longest(end: &End) -> bool {
    let used = Used {
        first: 0,
        count: 4096,
    };
    end.answered
        .iter()
        .map(|answered| answered.answer)
        .eq([Ok(Given::Used(used)), Err(Refusal::RunLength(65537))])
}

/// Whether a run of 65,536 bytes takes 4,096 numbers on a route, and one of 65,537 is refused.
fn longest_on(heap: Global, name: RouteName) -> Result<bool, AllocError> {
    let longest = vec![in heap; 0; 65536]?;
    let longer = vec![in heap; 0; 65537]?;
    let calls = vec![in heap; SessionCall::Cover(longest), SessionCall::Cover(longer)]?;
    Ok(of_both(exchanged(heap, name, &[0; 16], 0, calls), took_the_longest))
}

/// Whether that holds on every route.
pub fn longest_runs(heap: Global) -> Result<bool, AllocError> {
    on_every_route(|name| longest_on(heap, name))
}

/// Whether an end answered that nothing remains.
fn has_nothing_left(end: &End) -> bool {
    end.answered.first().map(|answered| answered.answer) == Some(Ok(Given::Left(0)))
}

/// Whether a session opens at 2^32 on a route with nothing remaining, and is refused at 2^32 + 1 with that number.
fn last_on(heap: Global, name: RouteName) -> Result<bool, AllocError> {
    let calls = vec![in heap; SessionCall::Remaining]?;
    let at_the_end = exchanged(heap, name, &[0; 16], COUNTERS, calls);
    let past_it = exchanged(heap, name, &[0; 16], COUNTERS + 1, Vec::new(heap));
    let refusal = Refusal::OpeningNumber(COUNTERS + 1);
    Ok(
        of_both(at_the_end, has_nothing_left)
            && past_it.err() == Some(ExchangeError::NotSetUp(refusal)),
    )
}

/// Whether that holds on every route.
pub fn last_openings(heap: Global) -> Result<bool, AllocError> {
    on_every_route(|name| last_on(heap, name))
}
