//! Sets of ports, and walks through them.
use crate::{NO_PORTS, has_port, next_port, with_port, without_port};
use std::test::Fail;

// Returns the number of ports of the set that a walk from 0 visits, at most 64.
fn count(set: u64) -> u8 {
    let mut met = 0;
    let mut port = 0;
    for turn in 0..64u8 {
        if let Some(p) = next_port(set, port) {
            met = turn + 1;
            port = p;
        }
    }
    met
}

#[test]
fn port_one_is_the_lowest_bit_and_port_64_the_highest(rt: HostRuntime) -> Result<(), Fail> {
    assert_eq!(rt; with_port(NO_PORTS, 1), 1);
    assert_eq!(rt; with_port(1, 64), 0x8000_0000_0000_0001);
    assert!(rt; has_port(0x8000_0000_0000_0000, 64) && !has_port(0x8000_0000_0000_0000, 63));
    assert_eq!(rt; without_port(7, 2), 5);
    assert_eq!(rt; without_port(5, 2), 5);
    Ok(())
}

#[test]
fn walk_meets_ports_in_ascending_order(rt: HostRuntime) -> Result<(), Fail> {
    let set = 0x8000_0000_0000_0006;
    assert_eq!(rt; next_port(set, 0), Some(2));
    assert_eq!(rt; next_port(set, 1), Some(2));
    assert_eq!(rt; next_port(set, 2), Some(3));
    assert_eq!(rt; next_port(set, 3), Some(64));
    assert_eq!(rt; next_port(set, 64), None);
    assert_eq!(rt; next_port(set, 255), None);
    assert_eq!(rt; next_port(NO_PORTS, 0), None);
    Ok(())
}

#[test]
fn walk_meets_each_port_once(rt: HostRuntime) -> Result<(), Fail> {
    assert_eq!(rt; count(0xffff_ffff_ffff_ffff), 64);
    assert_eq!(rt; count(0x8000_0000_0000_0001), 2);
    Ok(())
}
