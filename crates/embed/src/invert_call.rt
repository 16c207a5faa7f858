//! The exported call that inverts sixteen bytes.
ghost use Rattle.std.specs.Prelude.{◌≡◌};
ghost use Rattle.embed.specs.Inversions.{InvertAnswered};
ghost use Rattle.routes.specs.Names.{route_at};

use crate::invert::Invert;
use crate::on_route::on_numbered;
use crate::reply::Reply;

/// Replaces each of sixteen bytes by its inverse on the route of a number, and gives the status that it leaves in the reply. Refused, with the
/// bytes as they were: 255 with the route's number where it names none; then 9 with the starting tally, 3 with the length, 6 with 0.
#[unsafe(no_mangle)]
pub extern "C" fn janvlozer_invert(
    route: u32,
    start: u64,
    bytes: &mut [u8],
    reply: &mut Reply,
) -> u64
    ensures answered { InvertAnswered (route_at route) route start bytes.old reply.new bytes.new }
    ensures status { result ≡ reply.new.status }
{
    on_numbered(route, start, Invert { start }, bytes, reply)
}
