//! The demonstration: a reading on its way, told for people.
use crate::answer::Failure;
use crate::delivery::{Delivery, KEY, OPENING, PREFIX, READING, START};
use crate::hex::Hex;
use routes::RouteName;
use sessions::{End, SessionAnswer, SessionCall};
use std::{fmt, io};

/// Bytes as characters, with a dot for those that can't be shown.
#[derive(Clone, Copy)]
struct Plain<'a>(&'a [u8]);

impl fmt::Display for Plain<'_> {
    fn fmt<W: fmt::Write>(&self, f: &mut fmt::Formatter<W>) -> fmt::Result {
        for byte in self.0 {
            let shown = match *byte {
                b' '..=b'~' => *byte as char,
                _ => '.',
            };
            write!(f, "{shown}")?;
        }
        Ok(())
    }
}

/// A call, as it is shown.
#[derive(Clone, Copy)]
struct Asked<'a>(&'a SessionCall);

impl fmt::Display for Asked<'_> {
    fn fmt<W: fmt::Write>(&self, f: &mut fmt::Formatter<W>) -> fmt::Result {
        match self.0 {
            SessionCall::Cover(run) => write!(f, "cover {} bytes", run.len()),
            SessionCall::Skip(n) => write!(f, "skip {n}"),
            SessionCall::Remaining => write!(f, "remaining"),
        }
    }
}

/// An answer, as it is shown.
#[derive(Clone, Copy)]
struct Told(SessionAnswer);

impl fmt::Display for Told {
    fn fmt<W: fmt::Write>(&self, f: &mut fmt::Formatter<W>) -> fmt::Result {
        match self.0 {
            Ok(given) => write!(f, "taken {given}"),
            Err(refusal) => write!(f, "{}", Failure::Refused(refusal)),
        }
    }
}

/// Prints the calls, each with its answer at both ends.
fn show_calls(rt: &(impl Print + AllocGlobal), near: &End, far: &End) -> anyhow::Result<()> {
    let heap = rt.alloc();
    println!(rt; "call                at the transmitter    at the gateway")?;
    for (here, there) in near.answered.iter().zip(far.answered.iter()) {
        let call = Asked(&here.call).to_string(heap)?;
        let told = Told(here.answer).to_string(heap)?;
        println!(rt; "{call:<18}  {told:<20}  {}", Told(there.answer))?;
    }
    Ok(())
}

/// Prints how a tally comes about.
fn show_tally(rt: &impl Print, delivery: &Delivery) -> io::Result<()> {
    let near = delivery.ends.transmitter.tally;
    let far = delivery.ends.gateway.tally;
    println!(rt; "tallies             {near:<20}  {far}")?;
    let blocks = READING.len().div_ceil(16);
    println!(rt;
        "                    {START} at the start, 10 for the key, 10 rounds for each of {blocks} covered blocks"
    )
}

/// Prints an exchange: its set-up, each call, the reading as it was sent and as it came, and what both ends have to show.
pub fn show_delivery(rt: &(impl Print + AllocGlobal), delivery: &Delivery) -> anyhow::Result<()> {
    let near = &delivery.ends.transmitter;
    let far = &delivery.ends.gateway;
    println!(rt; "a tank reading goes from a transmitter to a gateway")?;
    println!(rt)?;
    println!(rt; "key                 {}", Hex(KEY))?;
    println!(rt; "prefix              {}", Hex(PREFIX))?;
    println!(rt; "both open at        {OPENING}")?;
    println!(rt;
        "route               {:<20}  {}",
        delivery.from, delivery.to
    )?;
    println!(rt)?;
    show_calls(rt, near, far)?;
    println!(rt; "close               {:<20}  {}", near.closed, far.closed)?;
    show_tally(rt, delivery)?;
    println!(rt)?;
    println!(rt; "the reading         {}", Plain(READING))?;
    println!(rt; "as covered          {}", Hex(delivery.covered()))?;
    println!(rt; "as uncovered        {}", Plain(delivery.uncovered()))?;
    Ok(())
}

/// Prints the same exchange on all pairs of routes, in one line each.
pub fn show_pairs(rt: &(impl Print + AllocGlobal)) -> anyhow::Result<()> {
    println!(rt; "the same calls on all pairs of routes")?;
    println!(rt)?;
    println!(rt; "transmitter  gateway      tallies   closed at   the reading")?;
    for from in RouteName::ALL {
        for to in RouteName::ALL {
            show_pair(rt, &Delivery::new(rt.alloc(), from, to)?)?;
        }
    }
    Ok(())
}

/// Prints an exchange in one line.
fn show_pair(rt: &impl Print, delivery: &Delivery) -> io::Result<()> {
    let near = &delivery.ends.transmitter;
    let far = &delivery.ends.gateway;
    let came = if delivery.came_back() {
        "came back"
    } else {
        "DID NOT COME BACK"
    };
    println!(rt;
        "{:<11}  {:<11}  {} {}   {} {}   {came}",
        delivery.from, delivery.to, near.tally, far.tally, near.closed, far.closed
    )
}
