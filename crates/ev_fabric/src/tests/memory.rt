//! A fabric under refused memory: these tests pass too if they run with each allocation refused in
//! turn. A step that is refused memory changes nothing, and succeeds when it is repeated.

use super::{Act, announces, outcome, perform, report_of, reports, two};
use crate::Fabric;
use ether_wire::Page;
use std::alloc::Global;
use std::test::Fail;

/// The number of the refusal `NoMemory`.
const NO_MEMORY: u8 = 15;

// Two edges, by the first try that isn't refused memory.
fn made(alloc: Global) -> Option<Fabric> {
    for _ in 0..2u8 {
        if let Ok(fabric) = two(alloc) {
            return Some(fabric);
        }
    }
    None
}

// The visible state of two edges.
#[derive(Drop)]
struct Seen {
    first: Page<1024>,
    second: Page<1024>,
    pool: usize,
}

fn look_at(fabric: &Fabric) -> Seen {
    Seen {
        first: report_of(fabric, 1),
        second: report_of(fabric, 2),
        pool: fabric.pool().len(),
    }
}

// Returns `true` if two edges are in the state seen before.
fn are_as(fabric: &Fabric, before: &Seen) -> bool {
    let now = look_at(fabric);
    now.first.octets() == before.first.octets()
        && now.second.octets() == before.second.octets()
        && now.pool == before.pool
}

// Returns `true` if the act succeeds, at its second try if the first one was refused memory and
// changed nothing.
fn succeeds_at_last(fabric: &mut Fabric, e: usize, what: Act) -> bool {
    let before = look_at(fabric);
    match outcome(fabric, e, what) {
        Ok(_) => true,
        Err(number) => {
            number == NO_MEMORY && are_as(fabric, &before) && outcome(fabric, e, what).is_ok()
        }
    }
}

// Edge 1 receives a frame of each of eight stations, twice: if memory is refused the first time,
// the station is learnt the second time.
fn learn(fabric: &mut Fabric) {
    let _ = perform(fabric, 1, Act::Up(1));
    for n in 0..8u8 {
        let _ = perform(fabric, 1, Act::Hear(n));
        let _ = perform(fabric, 1, Act::Hear(n));
    }
}

// The number of the update that was announced last.
fn last_number(fabric: &Fabric) -> Option<u64> {
    match fabric.pool().last() {
        None => None,
        Some(update) => Some(update.value().counter),
    }
}

// Each of the edge's nine updates is announced, in their order and none twice.
#[test]
fn refused_announcement_is_still_pending(rt: HostRuntime) -> Result<(), Fail> {
    let mut fabric = made(rt.alloc()).ok_or("no fabric")?;
    learn(&mut fabric);
    for n in 1..10u64 {
        assert!(rt; succeeds_at_last(&mut fabric, 1, Act::Announce));
        assert_eq!(rt; fabric.pool().len() as u64, n);
        assert_eq!(rt; last_number(&fabric), Some(n));
    }
    assert!(rt; !announces(&mut fabric, 1));
    assert_eq!(rt; fabric.pool().len(), 9);
    Ok(())
}

// Nothing is learnt any more, and each announced update is of the new incarnation.
#[test]
fn refused_restart_is_made_up_for(rt: HostRuntime) -> Result<(), Fail> {
    let mut fabric = made(rt.alloc()).ok_or("no fabric")?;
    learn(&mut fabric);
    assert!(rt; succeeds_at_last(&mut fabric, 1, Act::Restart(1)));
    assert!(rt; reports(&fabric, 1, "flood 5001 10.0.0.1 1.1 up\n"));
    assert!(rt; reports(&fabric, 2, "flood 5001 10.0.0.2 1 up\n"));
    assert_eq!(rt; fabric.pool().len(), 0);
    assert!(rt; succeeds_at_last(&mut fabric, 1, Act::Announce));
    assert_eq!(rt; last_number(&fabric), Some(1));
    Ok(())
}
