//! Work on a route that is picked by its name.
ghost use Rattle.std.specs.Prelude.{◌≡◌, ℕ, List};
ghost use Rattle.routes.specs.Names.{route_at};
ghost use Rattle.embed.specs.Replies.{OnNumber};
ghost use Rattle.embed.specs.declared.reply.Reply.{Reply};

use crate::reply::Reply;
use routes::{ByBitTower, ByNibblePair, Power, Route, RouteName, Split, Table};

/// Work on bytes in place that any of the routes can do.
pub(crate) trait OnRoute {
    ghost replied: { Self → List ℕ → Reply → List ℕ → Type 0 };

    /// Makes a route and does the work on it. The reply tells what was done and the tally after it.
    fn on<R: Route<Choice = ()>>(self, bytes: &mut [u8]) -> Reply
        ensures { replied self bytes.old result bytes.new };
}

/// Does work on the route of a name.
pub(crate) fn on_named<W: OnRoute>(name: RouteName, work: W, bytes: &mut [u8]) -> Reply
    ensures { W.replied work bytes.old result bytes.new }
{
    // A match, and no table of closures: no closure is generic over the route, so the work is a trait with a generic method. The name is looked at once
    // a call, and not at every block.
    match name {
        RouteName::Power => work.on::<Power>(bytes),
        RouteName::Split => work.on::<Split>(bytes),
        RouteName::Table => work.on::<Table>(bytes),
        RouteName::NibblePair => work.on::<ByNibblePair>(bytes),
        RouteName::BitTower => work.on::<ByBitTower>(bytes),
    }
}

/// Does work on the route of a number, leaves a reply, and gives its status. Where the number names no route, nothing is done, and the reply tells so
/// at a starting tally.
pub(crate) fn on_numbered<W: OnRoute + Drop>(
    route: u32,
    start: u64,
    work: W,
    bytes: &mut [u8],
    reply: &mut Reply,
) -> u64
    ensures answered { OnNumber (route_at route) route start (W.replied work bytes.old) bytes.old reply.new bytes.new }
    ensures status { result ≡ reply.new.status }
{
    let left = match RouteName::try_from(route) {
        Ok(name) => on_named(name, work, bytes),
        Err(_) => Reply::unknown_route(route, start),
    };
    *reply = left;
    left.status
}
