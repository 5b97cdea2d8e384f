//! An edge begins anew while two other edges, in two processes, have different updates of its
//! earlier life: one has its advert of a station, the other one its withdrawal, too.

use super::runs::all;
use super::{Act, announces, is_known, is_newer, perform, reports};
use crate::Fabric;
use std::alloc::{AllocError, Global};
use std::test::Fail;

/// The report of edge 3 if the advert of the earlier life is gone.
const GONE: &str = "flood 5001 10.0.0.1 1.1 up\nflood 5001 10.0.0.3 1 up\n\
    mac 5001 02:00:00:00:00:0a 10.0.0.1 1.2 withdrawn\n\
    owner 5001 02:00:00:00:00:0a none\n";

/// Its report if that advert is still there.
const LEFT: &str = "flood 5001 10.0.0.1 1.1 up\nflood 5001 10.0.0.3 1 up\n\
    mac 5001 02:00:00:00:00:0a 10.0.0.1 2 dynamic 0\n\
    owner 5001 02:00:00:00:00:0a 10.0.0.1\n";

// Edge 1 learns a station and loses it: updates 1 to 3 are its flood list, the advert and the
// withdrawal. Edge 2 takes all three, and edge 3 the first two. Edge 1 is opened again, and
// announces its flood list as update 4, which the other two take.
fn begins_anew(fabric: &mut Fabric) -> bool {
    let _ = perform(fabric, 1, Act::Up(1));
    let _ = perform(fabric, 1, Act::Hear(0x0a));
    let advert = announces(fabric, 1) && announces(fabric, 1);
    let _ = perform(fabric, 1, Act::Down(1));
    let withdrawal = announces(fabric, 1);
    let second = is_newer(fabric, 2, 1) && is_newer(fabric, 2, 2) && is_newer(fabric, 2, 3);
    let third = is_newer(fabric, 3, 1) && is_newer(fabric, 3, 2);
    let opened = perform(fabric, 1, Act::Restart(1)).is_ok() && announces(fabric, 1);
    let taken = is_newer(fabric, 2, 4) && is_newer(fabric, 3, 4);
    advert && withdrawal && second && third && opened && taken
}

fn three(alloc: Global) -> Result<Fabric, AllocError> {
    Fabric::new(alloc, all(alloc)?)
}

#[test]
fn older_advert_that_comes_back_first_is_withdrawn(rt: HostRuntime) -> Result<(), Fail> {
    let mut fabric = three(rt.alloc())?;
    assert!(rt; begins_anew(&mut fabric));
    assert!(rt; is_newer(&mut fabric, 1, 2));
    assert!(rt; is_known(&mut fabric, 1, 3));
    assert!(rt; announces(&mut fabric, 1));
    assert!(rt; is_newer(&mut fabric, 3, 5));
    assert!(rt; reports(&fabric, 3, GONE));
    Ok(())
}

// The law on sessions, in `ev_sites`, excludes this order: edge 3 lacks an update of the earlier
// life that edge 1 takes and keeps.
#[test]
fn older_advert_stays_if_its_withdrawal_comes_back_first(rt: HostRuntime) -> Result<(), Fail> {
    let mut fabric = three(rt.alloc())?;
    assert!(rt; begins_anew(&mut fabric));
    assert!(rt; is_newer(&mut fabric, 1, 3));
    assert!(rt; is_known(&mut fabric, 1, 2));
    assert!(rt; !announces(&mut fabric, 1));
    assert!(rt; reports(&fabric, 3, LEFT));
    Ok(())
}
