//! What holds on every route.
use routes::RouteName;

/// Whether something holds on each of the five routes. The first error ends it.
pub(crate) fn on_every_route<E, F: Fn(RouteName) -> Result<bool, E>>(holds: F) -> Result<bool, E>
    requires { F.IsAlwaysCallable holds }
{
    for name in RouteName::ALL {
        if !holds(name)? {
            return Ok(false);
        }
    }
    Ok(true)
}
