//! A register as it is stored in lists and maps: contracts see the register itself.
ghost use Rattle.std.specs.Prelude.{◌≡◌, ◌+◌, ◌*◌, ◌^◌, ◌<◌, refl, Some};
ghost use Rattle.route_wire.specs.Order.{vni_of, place_of};

use crate::place::cmp_within;
use crate::subject::subject_of;
use route_wire::{Key, Register};
use std::cmp::Ordering;
use std::hash::{Hash, Hasher};
use std::marker::Model;

/// A register that is stored in lists and maps.
#[derive(Clone, Copy, PartialEq, Eq)]
pub struct RegisterKey {
    register: Register,
}

impl Model for RegisterKey {
    ghost use Rattle.route_wire.specs.declared.update.Register.{Register};

    ghost Value = { Register };

    ghost view = { λ n. n.register };

    ghost inverse = { λ r. record { register = r } };
}

impl RegisterKey {
    /// Returns the register as a key.
    pub fn new(register: Register) -> Self
        ensures { result ≡ register }
    {
        RegisterKey { register }
    }

    /// Returns the stored register.
    pub fn register(&self) -> Register
        ensures { result ≡ self.now }
    {
        self.register
    }
}

/// Returns the VNI and the MAC address of a key as one number.
fn number_of(key: &Key) -> u128
    ensures value { result ≡ vni_of key.now * 2 ^ 64 + place_of key.now }
    ensures fits { result < 2 ^ 96 }
{
    match key {
        Key::Flood(vni) => u128::from(vni.number()) * 0x1_0000_0000_0000_0000,
        Key::Mac(vni, mac, _) => {
            let vni = u128::from(vni.number());
            vni * 0x1_0000_0000_0000_0000 + u128::from(mac.number() + 1)
        }
    }
}

// Two writes; a derived implementation would make up to eight.
impl Hash for RegisterKey {
    ghost use Rattle.std.specs.Prelude.{◌++◌};
    ghost use Rattle.std.specs.Hash as fed;
    ghost use Rattle.route_wire.specs.Order.{vni_of, place_of, ip_of, ip_number};
    ghost use Rattle.route_join.specs.Inner.Equals.{equal_registers};

    ghost hash_input = { λ r. fed.u128 (r.originator * 2 ^ 96 + (vni_of r.key * 2 ^ 64
        + place_of r.key)) ++ fed.u128 (ip_number (ip_of r.key)) };

    ghost respects_eq = { λ x y e i. let r = equal_registers x y e i in
        fed.u128 (r.originator * 2 ^ 96 + (vni_of r.key * 2 ^ 64 + place_of r.key))
        ++ fed.u128 (ip_number (ip_of r.key)) };

    fn hash<H: Hasher>(&self, state: &mut H) {
        let Register { originator, key } = self.register;
        let originator = u128::from(originator.number());
        state.write_u128(originator * 0x1_0000_0000_0000_0000_0000_0000 + number_of(&key));
        let ip = match key.ip() {
            None => 0,
            Some(ip) => ip.number(),
        };
        state.write_u128(ip);
    }
}

impl Ord for RegisterKey {
    ghost use Rattle.route_wire.specs.Order.{register_cmp};
    ghost use Rattle.route_wire.specs.Inner.Totals.{register_total};
    ghost use Rattle.route_wire.specs.Inner.Ties.{tied_registers};

    ghost cmp = { register_cmp };

    ghost total = { register_total };

    ghost matches_partial_cmp = { λ x y. refl };

    ghost matches_eq = { tied_registers };

    // A search in the tree of one subject compares two numbers, the originators, and then the IP
    // addresses only if they decide.
    #[tactic(auto, using(crate::proofs::Subjects::less_by_subject, crate::proofs::Subjects::greater_by_subject, crate::specs::Inner::Ranks::subject_exact))]
    fn cmp(&self, other: &RegisterKey) -> Ordering {
        let subject = subject_of(&self.register.key);
        match subject.cmp(&subject_of(&other.register.key)) {
            Ordering::Less => Ordering::Less,
            Ordering::Equal => cmp_within(&self.register, &other.register),
            Ordering::Greater => Ordering::Greater,
        }
    }
}

impl PartialOrd for RegisterKey {
    ghost use Rattle.std.specs.Cmp.{po};
    ghost use Rattle.route_wire.specs.Order.{register_cmp};
    ghost use Rattle.route_wire.specs.Inner.Totals.{register_total};
    ghost use Rattle.route_wire.specs.Inner.Ties.{tied_registers};

    ghost partial_cmp = { λ x y. Some (register_cmp x y) };

    ghost laws = { po register_total tied_registers };

    fn partial_cmp(&self, other: &RegisterKey) -> Option<Ordering> {
        Some(self.cmp(other))
    }
}
