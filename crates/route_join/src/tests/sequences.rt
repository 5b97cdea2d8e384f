//! Sequences of updates, after each step of which a table of groups and a plain list agree.
ghost use Rattle.std.specs.Prelude.{◌≡◌, ◌<◌, false};
ghost use Rattle.ether_wire.specs.Addr.{is_group};

use crate::tests::sorted_list::Plain;
use crate::tests::{addr, advert, dynamic, floods, new_table, said, valued, withdrawn};
use crate::{Table, TakeError, Taken};
use ether_wire::{Addr, Mac, Vni};
use route_wire::{Addr6, Advert, Content, Ip, Key, Register, Update, Value};
use std::alloc::{AllocError, Global};
use std::test::Fail;

/// Numbers that look random, the same in each run.
#[derive(Drop)]
pub(crate) struct Dice {
    state: u64,
}

impl Dice {
    pub(crate) fn new(seed: u64) -> Self {
        Dice { state: seed }
    }

    fn roll(&mut self, sides: u64) -> u64
        requires { 0 < sides }
        ensures { result < sides }
    {
        self.state = self
            .state
            .wrapping_mul(6_364_136_223_846_793_005)
            .wrapping_add(1_442_695_040_888_963_407);
        (self.state >> 33) % sides
    }

    fn mac(&mut self) -> Mac
        ensures { is_group result ≡ false }
    {
        match self.roll(3) {
            0 => Mac::new(0x0200_0000_000a),
            1 => Mac::new(0x0200_0000_000b),
            _ => Mac::new(0x0400_0000_0001),
        }
    }

    fn ip(&mut self) -> Option<Ip> {
        match self.roll(4) {
            0 => Some(Ip::V4(Addr::new(0xc000_0201))),
            1 => Some(Ip::V6(Addr6::new(0x2001_0db8))),
            _ => None,
        }
    }

    fn vni(&mut self) -> Vni {
        match self.roll(2) {
            0 => Vni::new(5001),
            _ => Vni::new(5002),
        }
    }

    // 10.0.0.5 is the one that isn't listed.
    fn originator(&mut self) -> Addr {
        match self.roll(9) {
            0 | 1 => addr(1),
            2 | 3 => addr(2),
            4 | 5 => addr(3),
            6 | 7 => addr(9),
            _ => addr(5),
        }
    }

    fn content(&mut self) -> Content {
        if self.roll(3) == 0 {
            return Content::Withdrawn;
        }
        let label2 = if self.roll(4) == 0 {
            Some(self.vni())
        } else {
            None
        };
        Content::Advert(Advert {
            is_static: self.roll(4) == 0,
            sequence: self.roll(3) as u32,
            label2,
        })
    }

    pub(crate) fn update(&mut self) -> Update {
        let originator = self.originator();
        let counter = self.roll(4) + 1;
        if self.roll(6) == 0 {
            let content = if self.roll(2) == 0 {
                Content::Withdrawn
            } else {
                advert(false, 0)
            };
            let key = Key::Flood(self.vni());
            return Update::new(Register { originator, key }, valued(counter, content));
        }
        let key = Key::Mac(self.vni(), self.mac(), self.ip());
        let value = Value {
            incarnation: self.roll(2) as u32,
            counter,
            content: self.content(),
        };
        Update::new(Register { originator, key }, value)
    }

    /// Returns an update of one of many registers of one MAC address.
    fn one_of_many(&mut self) -> Update {
        let ip = Ip::V4(Addr::new(0xc000_0200 + self.roll(30) as u32));
        let register = Register {
            originator: self.originator(),
            key: Key::Mac(Vni::new(5001), Mac::new(0x0200_0000_000a), Some(ip)),
        };
        let value = valued(self.roll(4) + 1, self.content());
        Update::new(register, value)
    }
}

/// A table of groups and a plain list that take the same updates.
#[derive(Drop)]
struct Both {
    table: Table,
    plain: Plain,
}

impl Both {
    fn new(alloc: Global) -> Self {
        Both {
            table: new_table(alloc),
            plain: Plain::new(alloc),
        }
    }

    /// Returns `true` if the table and the list have the same result for an update, and agree
    /// afterwards. If memory is refused, the table is unchanged, and takes the update once more.
    fn agree_on(&mut self, update: &Update) -> Result<bool, AllocError> {
        let mut taken = self.table.take(update);
        if taken == Err(TakeError::NoMemory) {
            if !self.plain.agrees_with(&self.table) {
                return Ok(false);
            }
            taken = self.table.take(update);
        }
        let same = match taken {
            Ok(taken) => self.plain.surely_take(update)? == (taken == Taken::Newer),
            Err(refusal) => {
                refusal == TakeError::UnknownOriginator && update.register().originator == addr(5)
            }
        };
        Ok(same && self.plain.agrees_with(&self.table))
    }
}

#[test]
fn random_sequences_agree(rt: HostRuntime) -> Result<(), Fail> {
    for seed in 0..10 {
        let mut dice = Dice::new(seed);
        let mut both = Both::new(rt.alloc());
        for step in 0..60 {
            assert!(rt; both.agree_on(&dice.update())?, "seed {seed}, step {step}");
        }
    }
    Ok(())
}

// The updates are enough for a tree. If memory for it is refused, the next update tries again.
#[test]
fn many_registers_of_one_address_agree(rt: HostRuntime) -> Result<(), Fail> {
    let mut dice = Dice::new(7);
    let mut both = Both::new(rt.alloc());
    for step in 0..150 {
        assert!(rt; both.agree_on(&dice.one_of_many())?, "step {step}");
    }
    Ok(())
}

fn all_agree(alloc: Global, updates: &[Update]) -> Result<bool, AllocError> {
    let mut both = Both::new(alloc);
    for update in updates {
        if !both.agree_on(update)? {
            return Ok(false);
        }
    }
    Ok(true)
}

#[test]
fn worked_sequences_agree(rt: HostRuntime) -> Result<(), Fail> {
    let alloc = rt.alloc();
    assert!(rt; all_agree(alloc, &[withdrawn(1, 2), dynamic(1, 1, 0)])?);
    assert!(rt; all_agree(alloc, &[dynamic(2, 1, 7), dynamic(1, 1, 7)])?);
    let pinned = said(9, valued(1, advert(true, 0)));
    assert!(rt; all_agree(alloc, &[pinned, dynamic(1, 1, 4_294_967_295)])?);
    assert!(rt; all_agree(alloc, &[dynamic(1, 5, 3), dynamic(1, 5, 4)])?);
    assert!(rt; all_agree(alloc, &[dynamic(1, 5, 4), dynamic(1, 5, 3)])?);
    let winner_withdrawn = [
        dynamic(1, 1, 1),
        dynamic(2, 1, 3),
        dynamic(3, 1, 2),
        withdrawn(2, 2),
    ];
    assert!(rt; all_agree(alloc, &winner_withdrawn)?);
    let flood = advert(false, 0);
    let flood_list = [
        floods(3, 1, flood),
        floods(1, 1, flood),
        floods(4, 1, flood),
        floods(4, 2, Content::Withdrawn),
    ];
    assert!(rt; all_agree(alloc, &flood_list)?);
    Ok(())
}
