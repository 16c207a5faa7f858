//! A tank reading on its way from a transmitter to a gateway.
ghost use Rattle.std.specs.Prelude.{◌≡◌, IfOk, Decides};
ghost use Rattle.sessions.specs.Exchanges.{calls_left};
ghost use Rattle.console.specs.Deliveries.{CallsAre, DeliveryMade, second_run, reading};

use routes::{AnyRoute, RouteName};
use sessions::{Agreement, Answered, BothEnds, End, ExchangeError, SessionCall, exchange};
use std::alloc::{AllocError, Global};

/// The key of both ends.
pub const KEY: &[u8] = b"sixteen byte key";

/// The prefix of both ends.
pub const PREFIX: &[u8] = b"fermenter 07";

/// The number at which both ends open.
pub const OPENING: u64 = 1000;

/// The tally with which both routes begin.
pub const START: u64 = 500;

/// A reading of a tank: 212 hectolitres of fermenter 7.
pub const READING: &[u8] = b"tank=fermenter 7; volume=212 hl";

/// An exchange of the reading between two routes.
#[derive(Drop)]
pub struct Delivery {
    /// The route of the transmitter.
    pub from: RouteName,
    /// The route of the gateway.
    pub to: RouteName,
    /// What both ends have to show after it.
    pub ends: BothEnds,
}

/// The calls of the demonstration: the reading is covered, some numbers are left out, and then too many.
fn calls(heap: Global) -> Result<Vec<SessionCall>, AllocError>
    ensures { IfOk result (λ v. CallsAre v.items) }
{
    let run = Vec::from_slice(heap, READING)?;
    Ok(vec![in heap;
        SessionCall::Remaining,
        SessionCall::Cover(run),
        SessionCall::Skip(6),
        SessionCall::Skip(1 << 32),
        SessionCall::Remaining,
    ]?)
}

impl Delivery {
    /// Sends the reading from one route to another.
    pub fn new(heap: Global, from: RouteName, to: RouteName) -> Result<Delivery, ExchangeError>
        ensures { DeliveryMade from to result }
    {
        let calls = calls(heap)?;
        let agreement = Agreement {
            key: KEY,
            prefix: PREFIX,
            at: Some(OPENING),
            start: START,
        };
        let ends = exchange::<AnyRoute, AnyRoute>(heap, from, to, agreement, calls)?;
        Ok(Delivery { from, to, ends })
    }

    /// The run that the transmitter left.
    pub fn covered(&self) -> &[u8]
        ensures { result.now ≡ second_run (calls_left self.now.ends.transmitter.answered.items) }
    {
        second_run(&self.ends.transmitter)
    }

    /// The run that the gateway left.
    pub fn uncovered(&self) -> &[u8]
        ensures { result.now ≡ second_run (calls_left self.now.ends.gateway.answered.items) }
    {
        second_run(&self.ends.gateway)
    }

    /// Whether the gateway holds the reading as the transmitter was given it.
    pub fn came_back(&self) -> bool
        ensures { Decides result (second_run (calls_left self.now.ends.gateway.answered.items) ≡ reading) }
    {
        self.uncovered() == READING
    }
}

/// The run of an end's second call, or no bytes where that has none.
fn second_run(end: &End) -> &[u8]
    ensures { result.now ≡ second_run (calls_left end.now.answered.items) }
{
    match end.answered.get(1) {
        Some(
            Answered {
                call: SessionCall::Cover(run),
                answer: _,
            },
        ) => run.as_slice(),
        _ => &[],
    }
}
