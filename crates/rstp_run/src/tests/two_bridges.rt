//! Two bridges that send each other their messages.
use super::{USUAL_PORT, happen};
use crate::bridge::{Bridge, BridgeConfig};
use crate::event::{Event, Outcome};
use arrayvec::ArrayVec;
use bpdu_wire::{Bpdu, BridgeId};
use rstp_state::{Role, Settings};
use std::test::Fail;

fn bridge_of_two(address: u64) -> Bridge {
    let settings = Settings {
        identifier: BridgeId::new(0x8000_0000_0000_0000 | address),
        hello: 2,
        max_age: 20,
        forward_delay: 15,
        hold: 6,
    };
    Bridge::new(BridgeConfig {
        settings,
        ports: &[USUAL_PORT, USUAL_PORT],
    })
}

/// Returns `true` if the port has this role and passes frames as given.
fn is_so(bridge: &Bridge, port: u8, role: Role, passes: bool) -> bool {
    1 <= port
        && usize::from(port) <= bridge.len()
        && bridge.port(port).role == role
        && bridge.passes(port) == passes
}

/// A message in flight on the link with this number.
#[derive(Clone, Copy)]
struct Letter {
    to_right: bool,
    link: u8,
    bpdu: Bpdu,
}

/// Two bridges. Link n joins their ports n.
#[derive(Drop)]
struct Pair {
    left: Bridge,
    right: Bridge,
    /// The first link is cut.
    is_cut: bool,
    under_way: ArrayVec<Option<Letter>, 16>,
}

impl Pair {
    fn new() -> Self {
        Pair {
            left: bridge_of_two(0x02aa_0000_0001),
            right: bridge_of_two(0x02aa_0000_0002),
            is_cut: false,
            under_way: ArrayVec::new(),
        }
    }

    /// Puts the messages of a bridge onto the links. Returns `true` if there was room and the
    /// bridge is settled.
    fn post(&mut self, to_right: bool, outcome: &Outcome) -> bool {
        let mut is_well = outcome.settled;
        for (link, bpdu) in outcome.out.iter() {
            if *link != 1 || !self.is_cut {
                let letter = Letter {
                    to_right,
                    link: *link,
                    bpdu: *bpdu,
                };
                is_well = self.under_way.try_push(Some(letter)).is_ok() && is_well;
            }
        }
        is_well
    }

    /// Processes the event at one bridge. Returns `true` if the bridge is settled and its messages
    /// are in flight.
    fn event(&mut self, at_right: bool, event: Event) -> bool {
        let outcome = if at_right {
            happen(&mut self.right, event)
        } else {
            happen(&mut self.left, event)
        };
        match outcome {
            Some(outcome) => self.post(!at_right, &outcome),
            None => false,
        }
    }

    /// Delivers the messages in flight and all that follow from them. Returns `true` if the links
    /// become silent.
    fn deliver(&mut self) -> bool {
        for _ in 0..16 {
            if self.under_way.is_empty() {
                return true;
            }
            if let Some(letter) = self.under_way.remove(0) {
                if !self.event(letter.to_right, Event::Bpdu(letter.link, letter.bpdu)) {
                    return false;
                }
            }
        }
        false
    }

    /// Processes the event at both bridges, and delivers all messages that follow. Returns `true`
    /// if all of this succeeds.
    fn both(&mut self, event: &Event) -> bool {
        let left = self.event(false, *event);
        let right = self.event(true, *event);
        left && right && self.deliver()
    }
}

#[test]
fn second_link_stands_by_for_the_first(rt: HostRuntime) -> Result<(), Fail> {
    let mut pair = Pair::new();
    assert!(rt; pair.both(&Event::PortUp(1)));
    assert!(rt; pair.both(&Event::PortUp(2)));
    for second in 1u8..61 {
        assert!(rt; pair.both(&Event::Second), "at {second}");
        assert!(rt; is_so(&pair.left, 1, Role::Designated, true), "at {second}");
        assert!(rt; is_so(&pair.left, 2, Role::Designated, true), "at {second}");
        assert!(rt; is_so(&pair.right, 1, Role::Root, true), "at {second}");
        assert!(rt;
            is_so(&pair.right, 2, Role::Alternate, false),
            "at {second}"
        );
    }
    pair.is_cut = true;
    assert!(rt; pair.both(&Event::PortDown(1)));
    assert!(rt; is_so(&pair.left, 1, Role::Disabled, false));
    assert!(rt; is_so(&pair.left, 2, Role::Designated, true));
    assert!(rt; is_so(&pair.right, 1, Role::Disabled, false));
    assert!(rt; is_so(&pair.right, 2, Role::Root, true));
    Ok(())
}
