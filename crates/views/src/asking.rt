//! A route asked once.
ghost use Rattle.std.specs.Prelude.{◌≡◌};
ghost use Rattle.routes.specs.AnyRoutes.{any_tally, any_name};
ghost use Rattle.routes.specs.Inverting.{Inverts};
ghost use Rattle.routes.specs.Names.{name_text};
ghost use Rattle.views.specs.Trails.{Goes, route_of};

use crate::trail::Trail;
use routes::{AnyRoute, Route, RouteName};
use std::fmt;

/// A route of this name, made with tally 0 and asked once on sixteen bytes that begin with the byte.
#[derive(Clone, Copy)]
pub struct Asking {
    name: RouteName,
    trail: Trail,
    inverse: u8,
    before: u64,
    after: u64,
}

/// What stands above the lines of askings.
pub const HEADING: &str = "route        steps                       inverse  tally";

/// A route that nobody has asked.
pub(crate) fn fresh(name: RouteName) -> AnyRoute
    ensures tally { any_tally result ≡ 0 }
    ensures named { any_name result ≡ name_text name }
{
    AnyRoute::new(name, 0).unwrap()
}

impl Asking {
    /// Makes the route, and asks it.
    pub fn new(name: RouteName, byte: u8) -> Asking
        ensures name { result.name ≡ name }
        ensures route { route_of result.trail ≡ name }
        ensures steps { Goes byte result.trail }
        ensures inverse { Inverts byte result.inverse }
        ensures before { result.before ≡ 0 }
        ensures after { result.after ≡ 1 }
    {
        let mut route = fresh(name);
        let mut bytes = [0; 16];
        bytes[0] = byte;
        let before = route.tally();
        route.invert(&mut bytes);
        Asking {
            name,
            trail: Trail::new(name, byte),
            inverse: bytes[0],
            before,
            after: route.tally(),
        }
    }
}

impl fmt::Display for Asking {
    fn fmt<W: fmt::Write>(&self, f: &mut fmt::Formatter<W>) -> fmt::Result {
        let Asking {
            name,
            trail,
            inverse,
            before,
            after,
        } = *self;
        write!(
            f,
            "{name:<11}  {trail}       {inverse:02X}  {before} → {after}"
        )
    }
}
