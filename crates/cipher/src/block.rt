//! One block through the cipher or the inverse cipher, in place.
ghost use Rattle.std.specs.Prelude.{◌≡◌};
ghost use Rattle.cipher.specs.Asking.{CanAsk, AskedTimes};
ghost use Rattle.cipher.specs.Fips197.{state, state_bytes};
ghost use Rattle.cipher.specs.Schedules.{schedule_words, schedule_rounds};

use crate::rounds::Direction;
use crate::schedule::KeySchedule;
use crate::state::{from_bytes, to_bytes};
use routes::Route;

/// The cipher or the inverse cipher of a block.
pub(crate) fn turn_block<D: Direction, R: Route>(
    route: &mut R,
    schedule: &KeySchedule,
    block: &mut [u8; 16],
)
    requires { CanAsk R.Route.tally route.old (schedule_rounds schedule.now) }
    ensures value { block.new ≡ state_bytes (D.turned (state block.old) (schedule_rounds schedule.now) (schedule_words schedule.now)) }
    ensures asked { AskedTimes R.Route.tally R.Route.name route.old route.new (schedule_rounds schedule.now) }
{
    let turned = D::turn(route, schedule, from_bytes(*block));
    *block = to_bytes(turned);
}
