//! What the programs show of fields, routes and blocks: a byte on its way through three fields, a route asked once, all routes compared at every byte,
//! a block turned on a route, a block that comes back on another route.

#![tactic(auto)]

mod asking;
mod inversion;
mod inverted;
mod round_trip;
mod survey;
mod trail;
mod turned;

pub use asking::{Asking, HEADING};
pub use inversion::Inversion;
pub use inverted::Inverted;
pub use round_trip::RoundTrip;
pub use survey::Survey;
pub use turned::{TurnedBlock, turn_block};
