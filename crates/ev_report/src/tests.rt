//! Lists of originators, by docs/routes.md: 1 to 64 different addresses with commas between them,
//! in the spelling that readers accept.

use crate::{ListFault, read_originators};
use ether_wire::Addr;
use std::alloc::{AllocError, Global};
use std::test::Fail;

// Whether a list has exactly these addresses, in this order.
fn is_list(list: &[u8], addresses: &[Addr]) -> bool {
    match read_originators(list) {
        Ok(originators) => originators.as_slice() == addresses,
        Err(_) => false,
    }
}

// Whether a list is wrong, first at this part, and for this reason.
fn is_wrong_at(list: &[u8], part: &[u8], fault: ListFault) -> bool {
    match read_originators(list) {
        Ok(_) => false,
        Err(wrong) => wrong.part == part && wrong.fault == fault,
    }
}

#[test]
fn right_lists_are_read_in_their_order(rt: HostRuntime) {
    let (low, high) = (Addr::new(0), Addr::new(0xffff_ffff));
    let (first, second) = (Addr::new(0x0a00_0001), Addr::new(0x0a00_0002));
    assert!(rt; is_list(b"10.0.0.1", &[first]));
    assert!(rt; is_list(b"10.0.0.2,10.0.0.1", &[second, first]));
    assert!(rt; is_list(b"255.255.255.255,0.0.0.0", &[high, low]));
}

#[test]
fn first_wrong_part_is_returned_with_its_fault(rt: HostRuntime) {
    let no_address = ListFault::NotAnAddress;
    assert!(rt; is_wrong_at(b"", b"", no_address));
    assert!(rt; is_wrong_at(b"10.0.0.1,", b"", no_address));
    assert!(rt; is_wrong_at(b"10.0.0.1, 10.0.0.2", b" 10.0.0.2", no_address));
    assert!(rt; is_wrong_at(b"10.0.0.1,10.0.0.256,x", b"10.0.0.256", no_address));
    assert!(rt; is_wrong_at(b"10.0.0", b"10.0.0", no_address));
    let zero = ListFault::LeadingZero;
    assert!(rt; is_wrong_at(b"10.0.0.1,10.0.0.01", b"10.0.0.01", zero));
    let twice = ListFault::Twice;
    assert!(rt; is_wrong_at(b"10.0.0.1,10.0.0.2,10.0.0.1", b"10.0.0.1", twice));
}

// The list 10.0.0.10, 10.0.0.11 and so on, of this number of addresses, up to 89.
fn long_list(alloc: Global, count: u8) -> Result<Vec<u8>, AllocError> {
    let mut list = Vec::new(alloc);
    for number in 10..90u8 {
        if number - 10 < count {
            if number > 10 {
                list.push(b',')?;
            }
            list.extend_from_slice(b"10.0.0.")?;
            list.push(b'0' + number / 10)?;
            list.push(b'0' + number % 10)?;
        }
    }
    Ok(list)
}

// The 65th address of this list is 10.0.0.74.
#[test]
fn list_has_at_most_64_addresses(rt: HostRuntime) -> Result<(), Fail> {
    let most = long_list(rt.alloc(), 64)?;
    match read_originators(most.as_slice()) {
        Ok(originators) => assert_eq!(rt; originators.as_slice().len(), 64),
        Err(_) => return Err("refused".into()),
    }
    let more = long_list(rt.alloc(), 65)?;
    assert!(rt; is_wrong_at(more.as_slice(), b"10.0.0.74", ListFault::TooMany));
    Ok(())
}
