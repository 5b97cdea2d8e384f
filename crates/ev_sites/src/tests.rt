//! A ring of four bridges whose messages take a second from bridge to bridge, and a plain function
//! that returns whether its passing ports form a circle. The expected passing ports at each second
//! are from outside.

use arrayvec::ArrayVec;
use bpdu_wire::{Bpdu, BridgeId};
use rstp_run::{Bridge, BridgeConfig, Event, Outcome};
use rstp_state::{PortSettings, Settings};
use std::test::Fail;

/// A port of the ring: the place of its bridge, and its number there, 1 or 2.
#[derive(Clone, Copy, Debug, PartialEq, Eq)]
struct Spot {
    bridge: usize,
    port: u8,
}

impl Spot {
    /// Returns the other end of the link: port 1 leads to port 2 of the next bridge.
    fn far_end(self) -> Spot {
        if self.port == 1 {
            Spot {
                bridge: self.bridge.wrapping_add(1) % 4,
                port: 2,
            }
        } else {
            Spot {
                bridge: self.bridge.wrapping_add(3) % 4,
                port: 1,
            }
        }
    }

    /// Returns the other port of the same bridge.
    fn beside(self) -> Spot {
        Spot {
            bridge: self.bridge,
            port: if self.port == 1 { 2 } else { 1 },
        }
    }

    /// Returns `true` if the port is an end of the link from the first bridge to the second.
    fn is_on_first_link(self) -> bool {
        let first = Spot { bridge: 0, port: 1 };
        self == first || self.far_end() == first
    }
}

/// A message in flight to a port.
#[derive(Clone, Copy)]
struct Letter {
    to: Spot,
    bpdu: Bpdu,
}

/// Four bridges, each joined to the next, and the last to the first.
#[derive(Drop)]
struct Ring {
    bridges: [Bridge; 4],
    /// The link from the first bridge to the second is cut.
    is_cut: bool,
    under_way: ArrayVec<Option<Letter>, 16>,
}

/// Returns the bridge with this address. Its two ports are edges by their settings if `admin_edge`.
fn bridge_of_ring(address: u64, admin_edge: bool) -> Bridge {
    let port = PortSettings {
        priority: 128,
        cost: 20000,
        admin_edge,
        auto_edge: !admin_edge,
        point_to_point: true,
    };
    Bridge::new(BridgeConfig {
        settings: Settings {
            identifier: BridgeId::new(0x8000_0000_0000_0000 | address),
            hello: 2,
            max_age: 20,
            forward_delay: 15,
            hold: 6,
        },
        ports: &[port, port],
    })
}

/// Processes the event. Returns `None` if the bridge lacks the event's port.
fn happen(bridge: &mut Bridge, event: Event) -> Option<Outcome> {
    let ports = bridge.len();
    let is_there = match event {
        Event::Second => true,
        Event::Bpdu(p, _) | Event::PortUp(p) | Event::PortDown(p) | Event::Mcheck(p) => {
            1 <= p && usize::from(p) <= ports
        }
    };
    if is_there {
        Some(bridge.event(event))
    } else {
        None
    }
}

impl Ring {
    /// Returns four bridges whose ports all came up at once.
    fn new(admin_edge: bool) -> Self {
        let mut ring = Ring {
            bridges: [
                bridge_of_ring(0x02aa_0000_0001, admin_edge),
                bridge_of_ring(0x02aa_0000_0002, admin_edge),
                bridge_of_ring(0x02aa_0000_0003, admin_edge),
                bridge_of_ring(0x02aa_0000_0004, admin_edge),
            ],
            is_cut: false,
            under_way: ArrayVec::new(),
        };
        for bridge in 0..4 {
            ring.event(bridge, Event::PortUp(1));
            ring.event(bridge, Event::PortUp(2));
        }
        ring
    }

    /// Returns `true` if messages and frames can't leave the port because its link is cut.
    fn is_cut_at(&self, spot: Spot) -> bool {
        self.is_cut && spot.is_on_first_link()
    }

    /// Processes the event at the bridge, and puts the bridge's messages onto the links.
    fn event(&mut self, bridge: usize, event: Event) {
        let outcome = match self.bridges.get_mut(bridge) {
            Some(there) => happen(there, event),
            None => None,
        };
        if let Some(outcome) = outcome {
            self.post(bridge, &outcome);
        }
    }

    /// Puts the messages of a bridge onto the links.
    fn post(&mut self, bridge: usize, outcome: &Outcome) {
        for (port, bpdu) in outcome.out.iter() {
            let from = Spot {
                bridge,
                port: *port,
            };
            if !self.is_cut_at(from) {
                let letter = Letter {
                    to: from.far_end(),
                    bpdu: *bpdu,
                };
                let _has_room = self.under_way.try_push(Some(letter));
            }
        }
    }

    /// Delivers the messages of the last second, and applies a second at each bridge.
    fn pass_second(&mut self) {
        let letters = self.under_way.take();
        for letter in letters.iter() {
            if let Some(letter) = letter {
                if !self.is_cut_at(letter.to) {
                    self.event(letter.to.bridge, Event::Bpdu(letter.to.port, letter.bpdu));
                }
            }
        }
        for bridge in 0..4 {
            self.event(bridge, Event::Second);
        }
    }

    /// Cuts the link from the first bridge to the second; both detect it at once.
    fn cut(&mut self) {
        self.is_cut = true;
        self.event(0, Event::PortDown(1));
        self.event(1, Event::PortDown(2));
    }

    /// Returns `true` if the port passes frames.
    fn passes(&self, spot: Spot) -> bool {
        match self.bridges.get(spot.bridge) {
            Some(bridge) => {
                1 <= spot.port && usize::from(spot.port) <= bridge.len() && bridge.passes(spot.port)
            }
            None => false,
        }
    }

    /// Returns the next port where a frame enters that entered at this port, or `None` if it
    /// doesn't get there.
    fn next(&self, at: Spot) -> Option<Spot> {
        let out = at.beside();
        let next = out.far_end();
        let goes = self.passes(at) && self.passes(out) && !self.is_cut_at(out);
        if goes && self.passes(next) {
            Some(next)
        } else {
            None
        }
    }

    /// Returns `true` if a frame that enters at the port returns to it after four crossings.
    fn comes_back(&self, start: Spot) -> bool {
        let mut at = start;
        for _crossing in 0..4 {
            match self.next(at) {
                Some(next) => at = next,
                None => return false,
            }
        }
        at == start
    }

    /// Returns `true` if a frame can run in a circle, in one direction or the other.
    fn holds_circle(&self) -> bool {
        self.comes_back(Spot { bridge: 0, port: 1 }) || self.comes_back(Spot { bridge: 0, port: 2 })
    }

    /// Returns the ports that pass frames at each bridge: 0 for none, 1 or 2 for only that port, 3
    /// for both.
    fn passing(&self) -> [u8; 4] {
        [
            self.passing_at(0),
            self.passing_at(1),
            self.passing_at(2),
            self.passing_at(3),
        ]
    }

    fn passing_at(&self, bridge: usize) -> u8 {
        let first = self.passes(Spot { bridge, port: 1 });
        let second = self.passes(Spot { bridge, port: 2 });
        match (first, second) {
            (false, false) => 0,
            (true, false) => 1,
            (false, true) => 2,
            (true, true) => 3,
        }
    }
}

/// The ports that pass frames at each of four bridges in the seconds after the ports came up, and
/// after the link was cut.
const COMING_UP: [[u8; 4]; 3] = [[0, 2, 2, 1], [3, 3, 2, 1], [3, 3, 2, 3]];

const AFTER_CUT: [[u8; 4]; 3] = [[2, 1, 1, 3], [2, 1, 1, 3], [2, 1, 3, 3]];

#[test]
fn ring_rests_three_seconds_after_it_came_up_and_after_a_cut(rt: HostRuntime) -> Result<(), Fail> {
    let mut ring = Ring::new(false);
    assert_eq!(rt; ring.passing(), [0, 0, 0, 0]);
    for second in 1usize..31 {
        ring.pass_second();
        println!(rt; "second {second}: {:?}", ring.passing())?;
        let expected = COMING_UP.get(second - 1).or(COMING_UP.last());
        assert_eq!(rt; Some(&ring.passing()), expected, "at {second}");
        assert!(rt; !ring.holds_circle(), "at {second}");
    }
    ring.cut();
    for second in 1usize..31 {
        ring.pass_second();
        println!(rt; "second {second} after the cut: {:?}", ring.passing())?;
        let expected = AFTER_CUT.get(second - 1).or(AFTER_CUT.last());
        assert_eq!(rt; Some(&ring.passing()), expected, "at {second}");
        assert!(rt; !ring.holds_circle(), "at {second}");
    }
    Ok(())
}

/// Ports that are edges by their settings pass frames as soon as they come up: the circle exists
/// until the bridges receive each other's messages.
#[test]
fn unheard_edges_hold_a_circle(rt: HostRuntime) -> Result<(), Fail> {
    let mut ring = Ring::new(true);
    assert_eq!(rt; ring.passing(), [3, 3, 3, 3]);
    assert!(rt; ring.holds_circle());
    for second in 1u8..5 {
        ring.pass_second();
        assert!(rt; !ring.holds_circle(), "at {second}");
    }
    assert_eq!(rt; ring.passing(), [3, 3, 2, 3]);
    Ok(())
}
