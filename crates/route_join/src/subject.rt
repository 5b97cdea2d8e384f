//! The subjects of routes: a network's flood list, or a MAC address in it.
ghost use Rattle.std.specs.Prelude.{◌≡◌, None, Some, refl};
ghost use Rattle.route_join.specs.Subject.{subject_of};
ghost use Rattle.route_join.specs.Inner.Subject.{subject_number, mac_place};

use ether_wire::{Mac, Vni};
use route_wire::Key;
use std::cmp::Ordering;
use std::hash::{Hash, Hasher};
use std::marker::Model;

/// The subject of a route: a network's flood list, or an address in a network, with any IP address.
/// The order is that of a report: by VNI, the flood list before the addresses, then by MAC.
// Both parts are numbers. Two subjects of one network are compared only by their places.
#[derive(Clone, Copy, PartialEq, Eq)]
pub(crate) struct Subject {
    vni: Vni,
    // 0 for the flood list, else one more than the number of the MAC
    place: u64,
}

impl Model for Subject {
    ghost use Rattle.std.specs.Prelude.{◌≤◌, ◌^◌};
    ghost use Rattle.route_join.specs.Subject.{Subject as About};
    ghost use Rattle.route_join.specs.Inner.Subject.{mac_at, mac_place};
    ghost use Rattle.route_join.specs.Inner.Ranks.{place_back};

    ghost Value = { About };

    ghost view = { λ s. record { vni = s.vni; mac = mac_at s.place } };

    ghost invariant = { λ s. s.place ≤ 2 ^ 48 };

    ghost inverse = { λ v. record { vni = v.vni; place = mac_place v.mac } };

    ghost inverse_ok = { λ s h i. record { vni = s.vni; place = place_back s.place i } };
}

impl Subject {
    /// Returns a network's flood list.
    pub(crate) fn flood(vni: Vni) -> Self
        ensures { result ≡ record { vni = vni; mac = None } }
    {
        Subject { vni, place: 0 }
    }

    /// Returns a MAC address in a network.
    #[tactic(auto, using(crate::proofs::Numbers::at_next))]
    pub(crate) fn address(vni: Vni, mac: Mac) -> Self
        ensures { result ≡ record { vni = vni; mac = Some mac } }
    {
        Subject {
            vni,
            place: mac.number() + 1,
        }
    }

    /// Returns the VNI.
    pub(crate) fn vni(&self) -> Vni
        ensures { result ≡ self.now.vni }
    {
        self.vni
    }

    /// Returns the address, or `None` for a flood list.
    #[tactic(auto, using(crate::proofs::Numbers::none_at, crate::proofs::Numbers::some_at))]
    pub(crate) fn mac(&self) -> Option<Mac>
        ensures { result ≡ self.now.mac }
    {
        if self.place == 0 {
            None
        } else {
            Some(Mac::new(self.place - 1))
        }
    }

    /// Returns the place of the subject in its network: 0 for the flood list.
    #[tactic(auto, using(crate::specs::Inner::Ranks::place_back))]
    fn place(&self) -> u64
        ensures { result ≡ mac_place self.now.mac }
    {
        self.place
    }

    /// Returns the whole subject as one number.
    fn number(&self) -> u128
        ensures { result ≡ subject_number self.now }
    {
        u128::from(self.vni.number()) * 0x1_0000_0000_0000_0000 + u128::from(self.place())
    }
}

// One write; a derived implementation would make two.
impl Hash for Subject {
    ghost use Rattle.std.specs.Hash as fed;
    ghost use Rattle.route_join.specs.Inner.Ranks.{same_subject};

    ghost hash_input = { λ s. fed.u128 (subject_number s) };

    ghost respects_eq = { λ x y e i. fed.u128 (subject_number (same_subject x y e i)) };

    fn hash<H: Hasher>(&self, state: &mut H) {
        state.write_u128(self.number());
    }
}

impl Ord for Subject {
    ghost use Rattle.route_join.specs.Subject.{subject_cmp};
    ghost use Rattle.route_join.specs.Inner.Ranks.{subject_total, tied_subjects};

    ghost cmp = { subject_cmp };

    ghost total = { subject_total };

    ghost matches_partial_cmp = { λ x y. refl };

    ghost matches_eq = { tied_subjects };

    // A search in the ordered set mostly passes lower subjects of one network, so this case is
    // checked first, by their places.
    #[tactic(auto, using(crate::proofs::Numbers::other_network, crate::proofs::Numbers::same_network, crate::proofs::Numbers::behind_lower))]
    fn cmp(&self, other: &Subject) -> Ordering {
        let (one, two) = (self.place(), other.place());
        if self.vni.number() != other.vni.number() {
            return self.vni.number().cmp(&other.vni.number());
        }
        if two < one {
            return Ordering::Greater;
        }
        one.cmp(&two)
    }
}

impl PartialOrd for Subject {
    ghost use Rattle.std.specs.Cmp.{po};
    ghost use Rattle.route_join.specs.Subject.{subject_cmp};
    ghost use Rattle.route_join.specs.Inner.Ranks.{subject_total, tied_subjects};

    ghost partial_cmp = { λ x y. Some (subject_cmp x y) };

    ghost laws = { po subject_total tied_subjects };

    fn partial_cmp(&self, other: &Subject) -> Option<Ordering> {
        Some(self.cmp(other))
    }
}

/// Returns the subject of a key.
pub(crate) fn subject_of(key: &Key) -> Subject
    ensures { result ≡ subject_of key.now }
{
    match key {
        Key::Flood(vni) => Subject::flood(*vni),
        Key::Mac(vni, mac, _) => Subject::address(*vni, *mac),
    }
}
