//! Tests the octets that are written on a connection.
use super::{EDGE, FLOOD, are, of_another, update, withdrawn};
use crate::Sender;
use ether_wire::{Addr, FailAt, Page};
use route_wire::Update;
use std::alloc::Global;
use std::test::Fail;

/// Returns the updates that these records spell.
fn updates(alloc: Global, records: &[[u8; 44]]) -> Vec<Update> {
    let mut updates = Vec::new(alloc);
    for record in records.iter() {
        if let Ok(update) = update(record) {
            let _ = updates.push(update);
        }
    }
    updates
}

#[test]
fn own_registers_are_said_and_then_what_is_announced(rt: HostRuntime) {
    let updates = updates(rt.alloc(), &[of_another(), FLOOD]);
    let page: Page<256> = Page::new();
    let mut sender = Sender::new(page);
    sender.originate(Addr::new(EDGE), updates.as_slice());
    if let Ok(update) = update(&withdrawn()) {
        sender.put(&update);
    }
    sender.flush();
    assert!(rt; sender.is_open());
    assert!(rt; are(sender.finish().octets(), &[FLOOD, withdrawn()]));
}

#[test]
fn a_withdrawn_register_is_said(rt: HostRuntime) {
    let updates = updates(rt.alloc(), &[withdrawn()]);
    let page: Page<256> = Page::new();
    let mut sender = Sender::new(page);
    sender.originate(Addr::new(EDGE), updates.as_slice());
    assert!(rt; sender.finish().octets() == withdrawn().as_slice());
}

#[test]
fn after_a_failed_call_none_is_made(rt: HostRuntime) {
    let updates = updates(rt.alloc(), &[FLOOD]);
    let page: Page<256> = Page::new();
    let mut sender = Sender::new(FailAt::writer(page, 2));
    sender.originate(Addr::new(EDGE), updates.as_slice());
    assert!(rt; sender.is_open());
    sender.originate(Addr::new(EDGE), updates.as_slice());
    assert!(rt; !sender.is_open());
    sender.originate(Addr::new(EDGE), updates.as_slice());
    sender.flush();
    let writer = sender.finish();
    assert_eq!(rt; writer.calls(), 2);
    assert!(rt; writer.inner().octets() == FLOOD.as_slice());
}
