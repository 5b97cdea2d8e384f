//! The learning table: the effect of each call, one after the other.
use super::{Run, station};
use crate::{Entry, Learnt};
use std::test::Fail;

const A: u64 = 0x0200_0000_000a;

const B: u64 = 0x0200_0000_000b;

const C: u64 = 0x0200_0000_000c;

const D: u64 = 0x0200_0000_000d;

fn heard(port: u8, last: u64) -> Option<Entry> {
    Some(Entry {
        port,
        last,
        pinned: false,
    })
}

#[test]
fn station_falls_into_bucket_830(rt: HostRuntime) -> Result<(), Fail> {
    let run = Run::made(rt.alloc(), 4, 1024).ok_or("no table")?;
    assert_eq!(rt; run.table.bucket(&station(A)), 830);
    Ok(())
}

#[test]
fn three_stations_share_one_bucket(rt: HostRuntime) -> Result<(), Fail> {
    let mut run = Run::made(rt.alloc(), 3, 1).ok_or("no table")?;
    for address in [A, B, C] {
        assert_eq!(rt; run.learn(station(address), 1, 0), Some(Learnt::New));
    }
    assert_eq!(rt; run.learn(station(B), 2, 1), Some(Learnt::Moved));
    assert_eq!(rt; run.remove(station(A)), true);
    assert_eq!(rt; run.learn(station(D), 1, 2), Some(Learnt::New));
    assert_eq!(rt; run.chain(0), Some(3));
    assert_eq!(rt; run.learn(station(A), 1, 3), Some(Learnt::Full));
    assert_eq!(rt; run.first_of(1), Some(station(C)));
    assert_eq!(rt; run.remove(station(C)), true);
    assert_eq!(rt; run.first_of(1), Some(station(D)));
    assert_eq!(rt; run.remove(station(D)), true);
    assert_eq!(rt; run.first_of(1), None);
    assert_eq!(rt; run.first_of(2), Some(station(B)));
    assert_eq!(rt; run.chain(0), Some(1));
    Ok(())
}

#[test]
fn moved_station_leaves_its_port(rt: HostRuntime) -> Result<(), Fail> {
    let mut run = Run::made(rt.alloc(), 4, 8).ok_or("no table")?;
    assert_eq!(rt; run.learn(station(A), 1, 4), Some(Learnt::New));
    assert_eq!(rt; run.learn(station(A), 2, 6), Some(Learnt::Moved));
    assert_eq!(rt; run.first_of(1), None);
    assert_eq!(rt; run.first_of(2), Some(station(A)));
    assert_eq!(rt; run.table.look(&station(A)), heard(2, 6));
    assert_eq!(rt; run.table.len(), 1);
    Ok(())
}

#[test]
fn full_table_keeps_what_it_has(rt: HostRuntime) -> Result<(), Fail> {
    let mut run = Run::made(rt.alloc(), 1, 4).ok_or("no table")?;
    assert_eq!(rt; run.learn(station(A), 1, 0), Some(Learnt::New));
    assert_eq!(rt; run.learn(station(B), 2, 0), Some(Learnt::Full));
    assert_eq!(rt; run.pin(station(B), 2), Some(false));
    assert_eq!(rt; run.table.look(&station(A)), heard(1, 0));
    assert_eq!(rt; run.table.look(&station(B)), None);
    assert_eq!(rt; run.table.len(), 1);
    Ok(())
}

#[test]
fn station_heard_longest_ago_is_oldest(rt: HostRuntime) -> Result<(), Fail> {
    let mut run = Run::made(rt.alloc(), 4, 4).ok_or("no table")?;
    assert_eq!(rt; run.learn(station(A), 1, 0), Some(Learnt::New));
    assert_eq!(rt; run.learn(station(B), 1, 0), Some(Learnt::New));
    assert_eq!(rt; run.learn(station(A), 1, 5), Some(Learnt::Refreshed));
    assert_eq!(rt; run.table.oldest(), Some(station(B)));
    assert_eq!(rt; run.remove(station(B)), true);
    assert_eq!(rt; run.table.oldest(), Some(station(A)));
    assert_eq!(rt; run.table.look(&station(A)), heard(1, 5));
    Ok(())
}

#[test]
fn pinned_station_neither_ages_nor_moves(rt: HostRuntime) -> Result<(), Fail> {
    let mut run = Run::made(rt.alloc(), 4, 4).ok_or("no table")?;
    assert_eq!(rt; run.learn(station(A), 1, 3), Some(Learnt::New));
    assert_eq!(rt; run.pin(station(A), 2), Some(true));
    assert_eq!(rt; run.table.oldest(), None);
    assert_eq!(rt; run.first_of(2), None);
    assert_eq!(rt; run.learn(station(A), 3, 9), Some(Learnt::Pinned));
    let pinned = Entry {
        port: 2,
        last: 0,
        pinned: true,
    };
    assert_eq!(rt; run.table.look(&station(A)), Some(pinned));
    assert_eq!(rt; run.remove(station(A)), true);
    assert_eq!(rt; run.remove(station(A)), false);
    assert_eq!(rt; run.table.len(), 0);
    Ok(())
}

// Run with each allocation refused in turn: only making the table takes memory.
#[test]
fn table_works_after_refused_memory(rt: HostRuntime) -> Result<(), Fail> {
    let mut run = Run::made(rt.alloc(), 2, 4).ok_or("no table")?;
    assert_eq!(rt; run.learn(station(A), 1, 1), Some(Learnt::New));
    assert_eq!(rt; run.learn(station(B), 1, 2), Some(Learnt::New));
    assert_eq!(rt; run.learn(station(C), 1, 2), Some(Learnt::Full));
    assert_eq!(rt; run.learn(station(A), 2, 3), Some(Learnt::Moved));
    assert_eq!(rt; run.learn(station(A), 2, 4), Some(Learnt::Refreshed));
    assert_eq!(rt; run.pin(station(B), 3), Some(true));
    assert_eq!(rt; run.learn(station(B), 1, 4), Some(Learnt::Pinned));
    assert_eq!(rt; run.table.oldest(), Some(station(A)));
    assert_eq!(rt; run.first_of(2), Some(station(A)));
    assert_eq!(rt; run.remove(station(A)), true);
    assert_eq!(rt; run.learn(station(C), 1, 4), Some(Learnt::New));
    assert_eq!(rt; run.table.look(&station(C)), heard(1, 4));
    assert_eq!(rt; run.table.len(), 2);
    Ok(())
}
