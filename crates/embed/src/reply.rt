//! What a call leaves for its caller.
ghost use Rattle.std.specs.Prelude.{◌≡◌};
ghost use Rattle.sessions.specs.Calls.{refused};
ghost use Rattle.sessions.specs.Reading.{numbers_given};
ghost use Rattle.embed.specs.Replies.{left_by, unknown_route};

use routes::Refusal;
use sessions::Used;

/// What a call leaves for its caller, laid out as C does. What does not apply is 0.
#[repr(C)]
#[derive(Clone, Copy)]
pub struct Reply {
    /// A number, as C reads it: 0 where the call was taken, the number of the refusal where it was refused, 255 where the route's number names no route.
    pub status: u64,
    /// The refusal's value, or the number that names no route.
    pub value: u64,
    /// The first counter number used.
    pub first: u64,
    /// How many counter numbers were used.
    pub count: u64,
    /// The tally of the route after the call, taken or refused.
    pub tally: u64,
}

/// The status of a call that names a route by a number that is none: a number, as C reads it, and no refusal's.
const UNKNOWN_ROUTE: u64 = 255;

impl Reply {
    /// What is left of a call that used counter numbers or was refused, at a tally.
    pub(crate) fn new(given: Result<Used, Refusal>, tally: u64) -> Reply
        ensures { result ≡ left_by (numbers_given given) tally }
    {
        match given {
            Ok(Used { first, count }) => Reply {
                status: 0,
                value: 0,
                first,
                count,
                tally,
            },
            Err(refusal) => Reply::refused(refusal.number(), refusal.value(), tally),
        }
    }

    /// What is left of a call that names no route, at a tally.
    pub(crate) fn unknown_route(number: u32, tally: u64) -> Reply
        ensures { result ≡ unknown_route number tally }
    {
        Reply::refused(UNKNOWN_ROUTE, u64::from(number), tally)
    }

    /// What is left of a refusal by its two numbers, at a tally.
    fn refused(status: u64, value: u64, tally: u64) -> Reply
        ensures { result ≡ left_by (refused status value) tally }
    {
        Reply {
            status,
            value,
            first: 0,
            count: 0,
            tally,
        }
    }
}
