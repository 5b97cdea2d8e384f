//! Windows of moves.
ghost use Rattle.std.specs.Prelude.{◌≡◌, true, IfOk};
ghost use Rattle.ev_mobility.specs.Moves.{has_place};

use crate::Moves;
use ether_wire::{Mac, Vni};
use mac_arena::Station;
use std::alloc::{AllocError, Global};
use std::test::Fail;

fn host(mac: u64) -> Station {
    Station {
        vni: Vni::new(5001),
        mac: Mac::new(0x0200_0000_0000 + mac % 0x100),
    }
}

/// The station 02:00:00:00:00:0a with a place.
fn placed(alloc: Global, key: &Station) -> Result<Moves, AllocError>
    ensures { IfOk result (λ moves. has_place moves key.now ≡ true) }
{
    let mut moves = Moves::new(alloc);
    moves.room(key)?;
    Ok(moves)
}

#[test]
fn fifth_move_within_180_seconds_freezes(rt: HostRuntime) -> Result<(), Fail> {
    let key = host(10);
    let mut moves = placed(rt.alloc(), &key)?;
    assert!(rt; !moves.note(&key, 0));
    assert!(rt; !moves.note(&key, 10));
    assert!(rt; !moves.note(&key, 20));
    assert!(rt; !moves.note(&key, 30));
    assert!(rt; !moves.frozen(&key));
    assert!(rt; moves.fifth(&key, 40));
    assert!(rt; moves.note(&key, 40));
    assert!(rt; moves.frozen(&key));
    Ok(())
}

#[test]
fn fifth_move_at_second_180_begins_a_window(rt: HostRuntime) -> Result<(), Fail> {
    let key = host(10);
    let mut moves = placed(rt.alloc(), &key)?;
    assert!(rt; !moves.note(&key, 0));
    assert!(rt; !moves.note(&key, 10));
    assert!(rt; !moves.note(&key, 20));
    assert!(rt; !moves.note(&key, 30));
    assert!(rt; moves.fifth(&key, 179));
    assert!(rt; !moves.fifth(&key, 180));
    assert!(rt; !moves.note(&key, 180));
    assert!(rt; !moves.frozen(&key));
    Ok(())
}

#[test]
fn frozen_address_stays_so_until_its_thaw(rt: HostRuntime) -> Result<(), Fail> {
    let key = host(10);
    let mut moves = placed(rt.alloc(), &key)?;
    moves.note(&key, 7);
    moves.note(&key, 7);
    moves.note(&key, 7);
    moves.note(&key, 7);
    assert!(rt; !moves.frozen(&key));
    moves.note(&key, 7);
    assert!(rt; moves.frozen(&key));
    assert!(rt; !moves.fifth(&key, 1000));
    moves.thaw(&key);
    assert!(rt; !moves.frozen(&key));
    assert!(rt; !moves.fifth(&key, 7));
    Ok(())
}

#[test]
fn addresses_have_windows_of_their_own(rt: HostRuntime) -> Result<(), Fail> {
    let (key, other) = (host(10), host(11));
    let mut moves = placed(rt.alloc(), &key)?;
    moves.note(&key, 0);
    moves.note(&key, 0);
    moves.note(&key, 0);
    moves.note(&key, 0);
    moves.room(&other)?;
    assert!(rt; moves.fifth(&key, 1));
    assert!(rt; !moves.fifth(&other, 1));
    moves.thaw(&other);
    assert!(rt; moves.fifth(&key, 1));
    Ok(())
}

#[test]
fn fifth_move_is_told_once(rt: HostRuntime) -> Result<(), Fail> {
    let key = host(10);
    let mut moves = placed(rt.alloc(), &key)?;
    moves.note(&key, 3);
    moves.note(&key, 3);
    moves.note(&key, 3);
    moves.note(&key, 3);
    assert!(rt; moves.note(&key, 3));
    assert!(rt; !moves.note(&key, 3));
    assert!(rt; !moves.note(&key, 3));
    assert!(rt; moves.frozen(&key));
    Ok(())
}
