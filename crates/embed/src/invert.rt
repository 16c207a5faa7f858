//! Inverting sixteen bytes on a route.
ghost use Rattle.embed.specs.Inversions.{Inverted, InvertReplied};

use crate::on_route::OnRoute;
use crate::reply::Reply;
use routes::{CAP, Refusal, Route};
use sessions::Used;

/// An inversion uses no counter numbers.
const NO_NUMBERS: Used = Used { first: 0, count: 0 };

/// Inverts sixteen bytes on a route with a starting tally, and gives the tally after that.
fn invert_on<R: Route<Choice = ()>>(start: u64, bytes: &mut [u8]) -> Result<u64, Refusal>
    ensures { Inverted start bytes.old result bytes.new }
{
    let mut route = R::new((), start)?;
    let length = bytes.len() as u64;
    let Some(block) = bytes.as_mut_array() else {
        return Err(Refusal::BlockLength(length));
    };
    if start == CAP {
        return Err(Refusal::Inversions(0));
    }
    route.invert(block);
    Ok(route.tally())
}

/// Inverting sixteen bytes from a starting tally on.
#[derive(Clone, Copy)]
pub(crate) struct Invert {
    pub(crate) start: u64,
}

impl OnRoute for Invert {
    ghost replied = { λ w before reply after. InvertReplied w.start before reply after };

    fn on<R: Route<Choice = ()>>(self, bytes: &mut [u8]) -> Reply {
        match invert_on::<R>(self.start, bytes) {
            Ok(tally) => Reply::new(Ok(NO_NUMBERS), tally),
            Err(refusal) => Reply::new(Err(refusal), self.start),
        }
    }
}
