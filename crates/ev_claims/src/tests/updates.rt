//! The effect of other edges' updates, and of those under the edge's own name.

use super::steps::{Step, goes};
use super::{A, STATIC, dynamic, learnt, own, reborn, saying};
use crate::{Imported, OwnError};
use route_join::{TakeError, Taken};
use route_wire::Content;

/// Taken, and no pinned station went.
const NEWER: Imported = Imported {
    taken: Taken::Newer,
    lost_pinned: false,
};

/// Taken, and it took a pinned station.
const TAKES_PINNED: Imported = Imported {
    taken: Taken::Newer,
    lost_pinned: true,
};

/// Of equal sequence numbers the lower address has the station.
#[test]
fn station_goes_to_the_lower_address(rt: HostRuntime) {
    let steps = [
        Step::Import(saying(3, A, 1, dynamic(3)), Ok(NEWER)),
        Step::Knows(A, 1, 0, false),
        Step::Counter(2),
        Step::Import(saying(1, A, 1, dynamic(3)), Ok(NEWER)),
        Step::KnowsNot(A),
        Step::Says(own(A, 3, Content::Withdrawn)),
    ];
    assert!(rt; goes(rt.alloc(), 0, false, &[learnt(A, 1, 0, 3)], &steps));
}

#[test]
fn static_advert_takes_a_pinned_station(rt: HostRuntime) {
    let steps = [
        Step::Pin(A, 1),
        Step::Import(saying(1, A, 1, dynamic(9)), Ok(NEWER)),
        Step::Knows(A, 1, 0, true),
        Step::Import(saying(1, A, 2, STATIC), Ok(TAKES_PINNED)),
        Step::KnowsNot(A),
        Step::Says(own(A, 3, Content::Withdrawn)),
    ];
    assert!(rt; goes(rt.alloc(), 0, false, &[], &steps));
}

#[test]
fn unlisted_originator_is_refused(rt: HostRuntime) {
    let steps = [
        Step::Import(
            saying(9, A, 1, dynamic(0)),
            Err(TakeError::UnknownOriginator),
        ),
        Step::Counter(1),
    ];
    assert!(rt; goes(rt.alloc(), 0, false, &[], &steps));
}

#[test]
fn advert_of_an_earlier_life_is_withdrawn(rt: HostRuntime) {
    let steps = [
        Step::ImportOwn(own(A, 9, dynamic(4)), Ok(Taken::Newer)),
        Step::Says(reborn(A, 2, Content::Withdrawn)),
        Step::ImportOwn(own(A, 9, dynamic(4)), Ok(Taken::Known)),
        Step::Counter(2),
        Step::AnnounceFlood(1, 1),
        Step::Announce(reborn(A, 2, Content::Withdrawn)),
        Step::AnnounceNothing,
    ];
    assert!(rt; goes(rt.alloc(), 1, false, &[], &steps));
}

#[test]
fn withdrawal_of_an_earlier_life_takes_no_number(rt: HostRuntime) {
    let steps = [
        Step::ImportOwn(own(A, 9, Content::Withdrawn), Ok(Taken::Newer)),
        Step::Says(own(A, 9, Content::Withdrawn)),
        Step::Counter(1),
        Step::AnnounceFlood(1, 1),
        Step::AnnounceNothing,
    ];
    assert!(rt; goes(rt.alloc(), 1, false, &[], &steps));
}

#[test]
fn newer_update_of_this_life_is_another_speaker(rt: HostRuntime) {
    let ahead = reborn(A, 9, Content::Withdrawn);
    let steps = [
        Step::ImportOwn(ahead, Err(OwnError::Ahead)),
        Step::SaysNothing(A),
        Step::Counter(1),
    ];
    assert!(rt; goes(rt.alloc(), 1, false, &[], &steps));
}
