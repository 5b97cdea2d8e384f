//! Random runs of three edges: deliveries are lost, repeated and reordered, and edges are opened
//! again. Two rounds later all agree, and again after stations have moved; plain loops over public
//! calls check the statements of the laws.
ghost use Rattle.std.specs.Prelude.{◌≡◌, ◌<◌, [], ◌∷◌, IfOk};
ghost use Rattle.ev_edge.specs.Config.{IsConfig};
ghost use Rattle.ev_fabric.specs.Opening.{AreConfigs};

use super::{Act, address, announces, config, first, is_known, mac, perform, report_of, second};
use crate::Fabric;
use bpdu_wire::BridgeId;
use ether_wire::{Addr, Out, Vni};
use ev_edge::{Edge, EdgeConfig};
use ev_tunnel::Decision;
use route_wire::{Content, Key, Update};
use std::alloc::{AllocError, Global};
use std::test::Fail;

/// Pseudo-random numbers, the same in each run.
#[derive(Drop)]
struct Dice {
    state: u64,
}

impl Dice {
    fn roll(&mut self, sides: u64) -> u64
        requires { 0 < sides }
        ensures { result < sides }
    {
        self.state = self
            .state
            .wrapping_mul(6_364_136_223_846_793_005)
            .wrapping_add(1_442_695_040_888_963_407);
        (self.state >> 33) % sides
    }

    // Three stations appear at any edge, updates are announced, and taken in any order, again, or
    // never; ports go down and come up; now and then an edge is opened again, in an incarnation
    // that no edge has led yet.
    fn act(&mut self, step: u32) -> Act {
        let port = self.roll(2) as u8 + 1;
        let station = self.roll(3) as u8 + 10;
        match self.roll(24) {
            0..=8 => Act::Send(port, 10, station),
            9..=12 => Act::Announce,
            13..=18 => Act::Take(self.roll(40) as usize),
            19 => Act::Down(port),
            20..=22 => Act::Up(port),
            _ => Act::Restart(step),
        }
    }
}

fn third() -> EdgeConfig
    ensures address { result.address ≡ 0x0a00_0003 }
    ensures originators { result.originators.items ≡ 0x0a00_0001 ∷ 0x0a00_0002 ∷ 0x0a00_0003 ∷ [] }
    ensures fits { IsConfig result }
{
    config(Addr::new(0x0a00_0003), BridgeId::new(0x8000_02aa_0000_0003))
}

pub(super) fn all(alloc: Global) -> Result<Vec<EdgeConfig>, AllocError>
    ensures { IfOk result (λ configs. AreConfigs configs.items) }
{
    let mut configs = Vec::new(alloc);
    configs.push(first())?;
    configs.push(second())?;
    configs.push(third())?;
    Ok(configs)
}

/// Station 16 + e appears only at port 1 of edge e.
const HOME: u8 = 16;

// All ports come up, and each edge receives a frame of its own station.
fn wake(fabric: &mut Fabric) {
    for e in 1..4u8 {
        for port in 1..3u8 {
            let _ = perform(fabric, usize::from(e), Act::Up(port));
        }
        let _ = perform(fabric, usize::from(e), Act::Send(1, 10, HOME | e));
    }
}

// Each edge announces its pending updates, and then takes each update of the pool.
fn round(fabric: &mut Fabric) {
    for e in 1..4usize {
        for _ in 0..8u8 {
            let _ = perform(fabric, e, Act::Announce);
        }
    }
    for e in 1..4usize {
        for k in 0..fabric.pool().len() {
            let _ = perform(fabric, e, Act::Take(k + 1));
        }
    }
}

// Returns `true` if nothing is pending and no update of the pool is news to an edge.
fn all_agree(fabric: &mut Fabric) -> bool {
    for e in 1..4usize {
        if announces(fabric, e) {
            return false;
        }
        for k in 0..fabric.pool().len() {
            if !is_known(fabric, e, k + 1) {
                return false;
            }
        }
    }
    true
}

fn edge_at(fabric: &Fabric, e: u8) -> Option<&Edge> {
    fabric.edge(usize::from(e))
}

// The update isn't edge e's, or is of an earlier incarnation than the edge's flood advert, which is
// its first update in each incarnation, or isn't newer than the edge's own value.
fn is_behind(edge: &Edge, e: u8, update: &Update) -> bool {
    let register = update.register();
    let Some(flood) = edge
        .table()
        .register(address(e), Key::Flood(Vni::new(5001)))
    else {
        return false
    };
    if register.originator != address(e) || update.value().incarnation < flood.value().incarnation {
        return true;
    }
    match edge.table().register(register.originator, register.key) {
        None => false,
        Some(own) => !update.is_newer(&own),
    }
}

// No table is ahead of edge e.
fn none_is_ahead(fabric: &Fabric, e: u8) -> bool {
    let Some(edge) = edge_at(fabric, e) else {
        return false
    };
    for a in 1..4u8 {
        let Some(other) = edge_at(fabric, a) else {
            return false
        };
        for update in other.table().updates() {
            if !is_behind(edge, e, &update) {
                return false;
            }
        }
    }
    true
}

// Of one register, incarnation and number there is one update.
fn said_once(pool: &[Update]) -> bool {
    for u in pool {
        for w in pool {
            let (a, b) = (u.value(), w.value());
            let same = u.register() == w.register() && a.incarnation == b.incarnation;
            if same && a.counter == b.counter && a != b {
                return false;
            }
        }
    }
    true
}

// Makes sixty random steps and checks after each of them that no table is ahead, and at the end
// that two updates of one register, incarnation and number are equal.
fn goes_on(fabric: &mut Fabric, dice: &mut Dice) -> bool {
    for step in 1..61u32 {
        let e = dice.roll(3) as u8 + 1;
        let _ = perform(fabric, usize::from(e), dice.act(step));
        if !none_is_ahead(fabric, 1) || !none_is_ahead(fabric, 2) || !none_is_ahead(fabric, 3) {
            return false;
        }
    }
    said_once(fabric.pool())
}

// Returns `true` if edge e advertises station n.
fn advertises(fabric: &Fabric, e: u8, n: u8) -> bool {
    let Some(edge) = edge_at(fabric, e) else {
        return false
    };
    match edge
        .table()
        .register(address(e), Key::Mac(Vni::new(5001), mac(n), None))
    {
        None => false,
        Some(own) => own.value().content != Content::Withdrawn,
    }
}

// The edge that advertises station n, 0 if none does, and nothing if more than one does.
fn place_of(fabric: &Fabric, n: u8) -> Option<u8> {
    let mut place = 0;
    for e in 1..4u8 {
        if advertises(fabric, e, n) {
            if place != 0 {
                return None;
            }
            place = e;
        }
    }
    Some(place)
}

fn sent(fabric: &mut Fabric, e: u8, what: Act) -> Option<Decision> {
    match perform(fabric, usize::from(e), what) {
        Ok(reply) => reply.decision,
        Err(_) => None,
    }
}

// Edge e takes edge o for the owner of station n.
fn knows(fabric: &Fabric, e: u8, o: u8, n: u8) -> bool {
    let Some(edge) = edge_at(fabric, e) else {
        return false
    };
    edge.table().owner(Vni::new(5001), mac(n)) == Some(address(o))
}

// A frame for station n goes to edge o only. There it comes out of the tunnel at one port of two,
// since n is learnt there. A frame from the edge's own station, at port 1, comes out at port 2 or
// nowhere.
fn goes_to(fabric: &mut Fabric, e: u8, o: u8, n: u8) -> bool {
    let here = sent(fabric, e, Act::Send(1, n, HOME | e));
    let Some(decision) = here else { return false };
    if e != o {
        return decision.local == 0 && decision.remote.as_slice() == [address(o)].as_slice();
    }
    let Some(out) = sent(fabric, e, Act::Reach(e % 3 + 1, n)) else {
        return false
    };
    let one = out.local == 1 || out.local == 2;
    one && decision.local & 1 == 0 && out.remote.is_empty() && decision.remote.is_empty()
}

// All edges find station n at edge o.
fn all_find(fabric: &mut Fabric, o: u8, n: u8) -> bool {
    for e in 1..4u8 {
        if !knows(fabric, e, o, n) || !goes_to(fabric, e, o, n) {
            return false;
        }
    }
    true
}

// Station n has come to edge e: two announcements, and all agree that it is there.
fn moves(fabric: &mut Fabric, e: u8, n: u8) -> bool {
    let before = fabric.pool().len();
    round(fabric);
    round(fabric);
    let announced = fabric.pool().len().wrapping_sub(before);
    announced == 2 && all_agree(fabric) && all_find(fabric, e, n)
}

// A random run, and then two rounds: all agree.
fn comes_to_agreement(fabric: &mut Fabric, seed: u64) -> bool {
    wake(fabric);
    let mut dice = Dice { state: seed };
    let sound = goes_on(fabric, &mut dice);
    wake(fabric);
    round(fabric);
    round(fabric);
    let first = report_of(fabric, 1);
    sound
        && all_agree(fabric)
        && said_once(fabric.pool())
        && first.failures() == 0
        && first.octets() == report_of(fabric, 2).octets()
        && first.octets() == report_of(fabric, 3).octets()
}

// Returns `true` if station n is at one edge and all edges find it there, or at none if it is no
// edge's own station.
fn is_found(fabric: &mut Fabric, n: u8) -> bool {
    let Some(place) = place_of(fabric, n) else {
        return false
    };
    place == 0 && n < HOME || all_find(fabric, place, n)
}

// Moves station n, unless it is an edge's own, to the edge after the one that has it, by a frame,
// or by a pin if n is 12. Returns that edge, if it advertises the station then.
fn comes_to(fabric: &mut Fabric, n: u8) -> Option<u8> {
    let place = place_of(fabric, n)?;
    if place == 0 || n > HOME {
        return None;
    }
    let next = place % 3 + 1;
    let what = if n == 12 {
        Act::Pin(n)
    } else {
        Act::Send(1, 10, n)
    };
    let _ = perform(fabric, usize::from(next), what);
    if advertises(fabric, next, n) {
        Some(next)
    } else {
        None
    }
}

#[test]
fn random_runs_agree_after_two_rounds(rt: HostRuntime) -> Result<(), Fail> {
    let mut moved = 0u64;
    for seed in 0..200 {
        let mut fabric = Fabric::new(rt.alloc(), all(rt.alloc())?)?;
        assert!(rt; comes_to_agreement(&mut fabric, seed), "seed {seed}");
        for n in [17u8, 18, 19, 10, 11, 12] {
            assert!(rt; is_found(&mut fabric, n), "seed {seed}, station {n}");
            if let Some(e) = comes_to(&mut fabric, n) {
                assert!(rt; moves(&mut fabric, e, n), "seed {seed}, station {n} to {e}");
                moved = moved.wrapping_add(1);
            }
        }
    }
    assert!(rt; moved > 200, "{moved} moves");
    Ok(())
}
