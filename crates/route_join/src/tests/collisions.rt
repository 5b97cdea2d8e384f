//! Subjects with one place in the map, if there is no salt.
ghost use Rattle.std.specs.Prelude.{◌≡◌, false};
ghost use Rattle.ether_wire.specs.Addr.{is_group};

use crate::salt::Salted;
use crate::subject::Subject;
use crate::tests::{addr, advert, is_taken, valued, vni};
use crate::{Table, Taken};
use arrayvec::ArrayVec;
use ether_wire::Mac;
use route_wire::{Key, Register, Update};
use std::alloc::Global;
use std::hash::BuildHasher;
use std::test::Fail;

// The addresses from 02:00:00:00:00:00 to 02:00:00:ff:ff:ff in network 5001 whose hashes without a
// salt end in the same 20 bits, 0x00007.
const COLLIDING: [u64; 23] = [
    0x09_1c19, 0x10_9e12, 0x12_b7c0, 0x25_0fa8, 0x2e_1bb6, 0x33_a288, 0x4d_f0d4, 0x51_0eb7,
    0x55_9a99, 0x59_4865, 0x60_9160, 0x67_2be4, 0x68_e832, 0x6e_4d99, 0x91_9239, 0xa6_d9ef,
    0xbe_6046, 0xc2_c095, 0xc6_b223, 0xf4_dbff, 0xfa_8d0d, 0xfc_5c65, 0xff_5dad,
];

fn near(number: u64) -> Mac
    ensures { is_group result ≡ false }
{
    Mac::new(0x0200_0000_0000 + number % 0x100_0000)
}

// Returns an update of an address by 10.0.0.1.
fn here(number: u64) -> Update {
    Update::new(
        Register {
            originator: addr(1),
            key: Key::Mac(vni(), near(number), None),
        },
        valued(1, advert(false, 0)),
    )
}

// A table that listens to 10.0.0.1.
fn listening(alloc: Global, salt: u64) -> Table {
    let mut originators = ArrayVec::new();
    originators.push(addr(1));
    Table::with_salt(alloc, originators, salt)
}

// Returns the bits of a subject's hash that the map uses.
fn hash(salt: u64, number: u64) -> u64 {
    let subject = Subject::address(vni(), near(number));
    let hash = Salted::new(salt).hash_one(&subject);
    (hash ^ (hash >> 32)) % 0x10_0000
}

// Returns how many of them have the hash of the first one.
fn together(salt: u64) -> usize {
    COLLIDING
        .iter()
        .filter(|number| hash(salt, **number) == hash(salt, COLLIDING[0]))
        .count()
}

#[test]
fn salt_parts_what_collides_without(rt: HostRuntime) {
    assert_eq!(rt; together(0), 23);
    assert_eq!(rt; together(1), 1);
    assert_eq!(rt; together(0x5eed), 1);
}

#[test]
fn colliding_subjects_are_told_apart(rt: HostRuntime) -> Result<(), Fail> {
    for salt in 0..2 {
        let mut table = listening(rt.alloc(), salt);
        for number in COLLIDING {
            if !is_taken(&mut table, &here(number)) {
                assert!(rt; is_taken(&mut table, &here(number)));
            }
        }
        for number in COLLIDING {
            assert_eq!(rt; table.take(&here(number)), Ok(Taken::Known));
            assert_eq!(rt; table.owner(vni(), near(number)), Some(addr(1)));
            assert_eq!(rt; table.owner(vni(), near(number ^ 1)), None);
        }
        let mut updates = table.updates();
        assert!(rt; updates.nth(22).is_some());
        assert!(rt; updates.next().is_none());
    }
    Ok(())
}
