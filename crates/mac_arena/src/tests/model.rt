//! The learning table beside a plain model, by random calls.
ghost use Rattle.std.specs.Prelude.{◌<◌, ◌≤◌};

use super::{PORTS, Run, station};
use crate::{Entry, Learned, Learnt, Station};
use std::alloc::Global;
use std::test::Fail;

// A station of the plain table, with the turns at which it was last heard and came to its port.
#[derive(Clone, Copy, Drop)]
struct Known {
    learned: Learned,
    heard: u64,
    came: u64,
}

// The learning table over one vector, looked through from its front for each answer.
#[derive(Drop)]
struct Plain {
    known: Vec<Known>,
    capacity: usize,
    turn: u64,
}

impl Plain {
    fn place(&self, key: &Station) -> Option<usize> {
        self.known
            .iter()
            .position(|known| known.learned.station == *key)
    }

    fn look(&self, key: &Station) -> Option<Entry> {
        let known = self.known.get(self.place(key)?)?;
        Some(known.learned.entry)
    }

    fn learn(&mut self, key: &Station, port: u8, second: u64) -> Option<Learnt> {
        self.turn = self.turn.wrapping_add(1);
        let turn = self.turn;
        let Some(place) = self.place(key) else {
            return self.add(
                key,
                Entry {
                    port,
                    last: second,
                    pinned: false,
                },
                Learnt::New,
            );
        };
        let known = self.known.get_mut(place)?;
        Some(known.hear(port, second, turn))
    }

    fn pin(&mut self, key: &Station, port: u8) -> Option<bool> {
        self.turn = self.turn.wrapping_add(1);
        let turn = self.turn;
        let Some(place) = self.place(key) else {
            let added = self.add(
                key,
                Entry {
                    port,
                    last: 0,
                    pinned: true,
                },
                Learnt::New,
            )?;
            return Some(added == Learnt::New);
        };
        let known = self.known.get_mut(place)?;
        known.pin(port, turn);
        Some(true)
    }

    fn add(&mut self, station: &Station, entry: Entry, answer: Learnt) -> Option<Learnt> {
        if self.known.len() >= self.capacity {
            return Some(Learnt::Full);
        }
        let known = Known {
            learned: Learned {
                station: *station,
                entry,
            },
            heard: self.turn,
            came: self.turn,
        };
        match self.known.push(known) {
            Ok(()) => Some(answer),
            Err(_refused) => None,
        }
    }

    fn remove(&mut self, key: &Station) -> bool {
        match self.place(key) {
            Some(place) if place < self.known.len() => {
                let _known = self.known.swap_remove(place);
                true
            }
            _ => false,
        }
    }

    fn oldest(&self) -> Option<Station> {
        let mut first: Option<Known> = None;
        for known in self.known.iter() {
            if !known.learned.entry.pinned && first.is_none_or(|first| known.heard < first.heard) {
                first = Some(*known);
            }
        }
        Some(first?.learned.station)
    }

    fn first_of(&self, port: u8) -> Option<Station> {
        let mut first: Option<Known> = None;
        for known in self.known.iter() {
            let here = known.learned.entry.port == port && !known.learned.entry.pinned;
            if here && first.is_none_or(|first| known.came < first.came) {
                first = Some(*known);
            }
        }
        Some(first?.learned.station)
    }
}

impl Known {
    fn hear(&mut self, port: u8, second: u64, turn: u64) -> Learnt {
        if self.learned.entry.pinned {
            return Learnt::Pinned;
        }
        let moved = self.learned.entry.port != port;
        self.learned.entry = Entry {
            port,
            last: second,
            pinned: false,
        };
        self.heard = turn;
        if moved {
            self.came = turn;
            return Learnt::Moved;
        }
        Learnt::Refreshed
    }

    fn pin(&mut self, port: u8, turn: u64) {
        if self.learned.entry.port != port {
            self.came = turn;
        }
        self.learned.entry = Entry {
            port,
            last: 0,
            pinned: true,
        };
    }
}

const STATIONS: u64 = 24;

// Whether the two tables answer alike about each station, each port and the oldest.
fn agree(run: &Run, plain: &Plain) -> bool {
    for address in 0..STATIONS {
        if run.table.look(&station(address)) != plain.look(&station(address)) {
            return false;
        }
    }
    for port in 1..PORTS + 1 {
        if run.first_of(port) != plain.first_of(port) {
            return false;
        }
    }
    run.table.oldest() == plain.oldest() && run.table.len() == plain.known.len()
}

// Whether one call, which the random number picks, is answered alike.
fn step(run: &mut Run, plain: &mut Plain, random: u64, second: u64) -> bool {
    let key = station(random / 8 % STATIONS);
    let port = 1 + (random / 0x1_0000 % 3) as u8;
    match random % 8 {
        0..=3 => run.learn(key, port, second) == plain.learn(&key, port, second),
        4 => run.pin(key, port) == plain.pin(&key, port),
        5 => run.remove(key) == plain.remove(&key),
        6 => match run.table.oldest() {
            Some(oldest) => run.remove(oldest) && plain.remove(&oldest),
            None => true,
        },
        _ => match run.first_of(port) {
            Some(first) => run.remove(first) && plain.remove(&first),
            None => true,
        },
    }
}

// Returns `true` if both tables are alike after each of this number of random calls.
fn runs_alike(alloc: Global, capacity: usize, buckets: usize, seed: u64) -> bool
    requires capacity { capacity ≤ 65536 }
    requires some { 0 < buckets }
    requires buckets { buckets ≤ 65536 }
{
    let Some(mut run) = Run::made(alloc, capacity, buckets) else {
        return false
    };
    let Ok(known) = Vec::with_capacity(alloc, capacity) else {
        return false
    };
    let mut plain = Plain {
        known,
        capacity,
        turn: 0,
    };
    let mut random = seed;
    for turn in 0..4000u64 {
        random = random
            .wrapping_mul(6_364_136_223_846_793_005)
            .wrapping_add(1_442_695_040_888_963_407);
        if !step(&mut run, &mut plain, random >> 33, turn / 4) || !agree(&run, &plain) {
            return false;
        }
    }
    true
}

#[test]
fn arena_agrees_with_a_table_over_one_vector(rt: HostRuntime) -> Result<(), Fail> {
    assert!(rt; runs_alike(rt.alloc(), 24, 16, 1), "room for all");
    assert!(rt; runs_alike(rt.alloc(), 7, 4, 2), "often full");
    assert!(rt; runs_alike(rt.alloc(), 12, 1, 3), "one bucket");
    Ok(())
}
