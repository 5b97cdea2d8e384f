//! The learning table, small.
ghost use Rattle.std.specs.Prelude.{◌≡◌, ◌<◌, ◌≤◌, length};
ghost use Rattle.mac_arena.specs.Learning.{IsLatest};

use crate::{Entry, Learned, Learnt, MacTable, Station};
use ether_wire::{Mac, Vni};
use std::alloc::{AllocError, Global};
use std::test::Fail;

mod model;
mod rows;

const PORTS: u8 = 3;

// A table with three ports and the greatest second so far.
#[derive(Drop)]
struct Run {
    table: MacTable,
    now: u64,
    buckets: usize,
    ghost latest: { IsLatest table now },
    ghost ports: { length table.ports ≡ 3 },
    ghost chains: { length table.chains ≡ buckets },
}

impl Run {
    fn new(alloc: Global, capacity: usize, buckets: usize) -> Result<Run, AllocError>
        requires capacity { capacity ≤ 65536 }
        requires some { 0 < buckets }
        requires buckets { buckets ≤ 65536 }
    {
        let table = MacTable::new(alloc, capacity, PORTS, buckets, 0)?;
        Ok(Run {
            table,
            now: 0,
            buckets,
        })
    }

    // A run, by the first try that isn't refused memory.
    fn made(alloc: Global, capacity: usize, buckets: usize) -> Option<Run>
        requires capacity { capacity ≤ 65536 }
        requires some { 0 < buckets }
        requires buckets { buckets ≤ 65536 }
    {
        for _ in 0..40 {
            if let Ok(run) = Run::new(alloc, capacity, buckets) {
                return Some(run);
            }
        }
        None
    }

    // Does nothing if the port doesn't exist, or if the second is below an earlier one.
    fn learn(&mut self, key: Station, port: u8, second: u64) -> Option<Learnt> {
        if port == 0 || port > PORTS || second < self.now {
            return None;
        }
        let learnt = self.table.learn(&key, port, second);
        self.now = second;
        Some(learnt)
    }

    fn pin(&mut self, key: Station, port: u8) -> Option<bool> {
        if port == 0 || port > PORTS {
            return None;
        }
        Some(self.table.pin(&key, port))
    }

    fn remove(&mut self, key: Station) -> bool {
        self.table.remove(&key)
    }

    fn first_of(&self, port: u8) -> Option<Station> {
        if port == 0 || port > PORTS {
            return None;
        }
        self.table.first_of(port)
    }

    fn chain(&self, bucket: usize) -> Option<usize> {
        if bucket >= self.buckets {
            return None;
        }
        Some(self.table.chain(bucket))
    }
}

// A station of network 5001, by its address.
fn station(address: u64) -> Station {
    Station {
        vni: Vni::new(5001),
        mac: Mac::new(address % 0x1_0000_0000_0000),
    }
}
