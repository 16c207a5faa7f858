//! What a reader would want to see of the fields.
use crate::*;

#[test]
fn inverses_of_the_byte_field(rt: HostRuntime) {
    assert_eq!(rt; u8::from(Byte::from(0x53).inverse()), 0xCA);
    assert_eq!(rt; u8::from(Byte::from(0x02).inverse()), 0x8D);
    assert_eq!(rt; u8::from(Byte::from(0x00).inverse()), 0x00);
}

#[test]
fn every_nibble_but_zero_has_an_inverse(rt: HostRuntime) {
    for value in 1..16u8 {
        let a = Nibble::low(value);
        assert!(rt; a.product(a.inverse()).same(Nibble::one()));
    }
    assert_eq!(rt; u8::from(Nibble::zero().inverse()), 0);
}

#[test]
fn a_byte_has_two_nibbles(rt: HostRuntime) {
    assert_eq!(rt; u8::from(Nibble::high(0xA5)), 0xA);
    assert_eq!(rt; u8::from(Nibble::low(0xA5)), 0x5);
}

#[test]
fn every_byte_inverts_alike_in_three_fields(rt: HostRuntime) {
    for value in 0..=255u8 {
        let byte = Byte::from(value);
        let inverse = byte.inverse();
        assert!(rt; invert_through::<NibblePair>(byte).same(inverse));
        assert!(rt; invert_through::<BitTower>(byte).same(inverse));
    }
}

#[test]
fn maps_take_the_powers_of_x_to_their_columns(rt: HostRuntime) {
    assert_eq!(rt; NibblePair::images()[1], 0x2E);
    assert_eq!(rt; BitTower::images()[1], 0x41);
    assert_eq!(rt;
        <Pair<Nibble> as ByteMap>::into(Byte::from(0x5C)).bits(),
        0x02
    );
    assert_eq!(rt;
        <Pair<Pair<Pair<Bit>>> as ByteMap>::into(Byte::from(0xBC)).bits(),
        0x02
    );
}
