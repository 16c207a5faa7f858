//! A demonstration: a tank reading on its way from a transmitter to a gateway, on all pairs of routes, and then how a byte is inverted in three fields
//! and by five routes.

#![tactic(auto)]

use console::{Delivery, show_delivery, show_pairs};
use routes::RouteName;
use views::{Inverted, Survey};

/// The byte that is inverted.
const BYTE: u8 = 0x53;

/// Shows the reading, the byte, and on how many bytes the routes agree.
fn main(rt: HostRuntime) -> anyhow::Result<()> {
    let delivery = Delivery::new(rt.alloc(), RouteName::Table, RouteName::BitTower)?;
    show_delivery(&rt, &delivery)?;
    println!(rt)?;
    show_pairs(&rt)?;
    println!(rt)?;
    rt.println(Inverted(BYTE))?;
    println!(rt)?;
    rt.println(Survey::new())?;
    Ok(())
}
