//! What a reader would want to see of the routes.
use crate::*;
use fields::{Byte, Field};
use std::process::Abort;
use std::test::Fail;

/// Sixteen bytes in a row, the first of which ends in the digit 0.
fn row(high: u8) -> [u8; 16] {
    let mut bytes = [0; 16];
    for (low, byte) in (0..16u8).zip(bytes.iter_mut()) {
        *byte = high.wrapping_mul(16) | low;
    }
    bytes
}

/// Each of sixteen bytes is the byte field's inverse of the one at the same place.
fn check_inverted(rt: &impl Abort, before: [u8; 16], after: [u8; 16]) {
    for (before, after) in before.iter().zip(&after) {
        assert_eq!(rt; *after, u8::from(Byte::from(*before).inverse()));
    }
}

#[test]
fn every_byte_inverts_on_every_route(rt: HostRuntime) -> Result<(), Fail> {
    for name in RouteName::ALL {
        let mut route = AnyRoute::new(name, 0)?;
        for high in 0..16u8 {
            let mut bytes = row(high);
            route.invert(&mut bytes);
            check_inverted(&rt, row(high), bytes);
        }
        assert_eq!(rt; route.tally(), 16);
    }
    Ok(())
}

/// Every route takes this starting tally, or every route refuses it: 9, with the tally.
fn check_start(rt: &impl Abort, start: u64, taken: bool) {
    for name in RouteName::ALL {
        match AnyRoute::new(name, start) {
            Ok(route) => {
                assert!(rt; taken);
                assert_eq!(rt; route.tally(), start);
            }
            Err(refusal) => {
                assert!(rt; !taken);
                assert_eq!(rt; refusal.number(), 9);
                assert_eq!(rt; refusal.value(), start);
            }
        }
    }
}

#[test]
fn starting_tallies_up_to_the_cap_are_taken(rt: HostRuntime) {
    check_start(&rt, 0, true);
    check_start(&rt, CAP - 1, true);
    check_start(&rt, CAP, true);
    check_start(&rt, CAP + 1, false);
    check_start(&rt, u64::MAX, false);
}

#[test]
fn a_route_stops_at_the_cap(rt: HostRuntime) -> Result<(), Fail> {
    for name in RouteName::ALL {
        let mut route = AnyRoute::new(name, CAP - 1)?;
        let mut bytes = [0x53; 16];
        route.invert(&mut bytes);
        assert_eq!(rt; bytes, [0xCA; 16]);
        assert_eq!(rt; route.tally(), CAP);
        route.invert(&mut bytes);
        assert_eq!(rt; bytes, [0; 16]);
        assert_eq!(rt; route.tally(), CAP);
    }
    Ok(())
}

#[test]
fn names_parse_and_print_back(rt: HostRuntime) -> Result<(), Fail> {
    for name in RouteName::ALL {
        assert_eq!(rt; name.text().parse::<RouteName>(), Ok(name));
        assert_eq!(rt; AnyRoute::new(name, 0)?.name(), name.text());
    }
    assert_eq!(rt; "Power".parse::<RouteName>(), Err(UnknownRoute));
    Ok(())
}
