//! The exported call that covers a run.
ghost use Rattle.std.specs.Prelude.{◌≡◌, Some};
ghost use Rattle.sessions.specs.Exchanges.{set_up_with};
ghost use Rattle.embed.specs.Covers.{CoverAnswered};
ghost use Rattle.routes.specs.Names.{route_at};

use crate::cover::Cover;
use crate::on_route::on_numbered;
use crate::reply::Reply;
use sessions::Agreement;

/// Covers or uncovers a run in place on the route of a number, in a session that opens at a counter number, and gives the status that it leaves in
/// the reply. Refused, with the run as it was: 255 with the route's number where it names none; then 9; 1, 6; 7, 8; 4, 5, 6.
#[unsafe(no_mangle)]
pub extern "C" fn janvlozer_cover(
    route: u32,
    key: &[u8],
    prefix: &[u8],
    number: u64,
    start: u64,
    run: &mut [u8],
    reply: &mut Reply,
) -> u64
    ensures answered { CoverAnswered (route_at route) route (set_up_with key.now prefix.now (Some number) start) run.old reply.new run.new }
    ensures status { result ≡ reply.new.status }
{
    let agreement = Agreement {
        key,
        prefix,
        at: Some(number),
        start,
    };
    on_numbered(route, start, Cover { agreement }, run, reply)
}
