//! Sequence numbers of own adverts (RFC 7432, section 15).
ghost use Rattle.std.specs.Prelude.{◌≡◌};
ghost use Rattle.ev_mobility.specs.Seq.{IsSeqFor, foreign_in, greater_of, heard, heard_all, nothing_heard, seq_of, seq_for};

use ether_wire::{Addr, Mac, Vni};
use route_join::{Table, UpdatesOf};
use route_wire::{Advert, Content, Update};

/// The sequence number of an edge's next own advert of an address.
#[derive(Clone, Copy, Debug, PartialEq, Eq)]
pub enum Seq {
    /// The next number.
    Next(u32),
    /// No number: another edge advertises the address as static.
    Static,
    /// No number: another edge has used the greatest one.
    Spent,
}

/// The adverts of other edges for an address.
#[derive(Clone, Copy, Debug, PartialEq, Eq)]
pub(crate) struct Heard {
    /// `true` if one of them is static.
    pub(crate) is_static: bool,
    /// The greatest sequence number, or `None` if no other edge advertises the address.
    pub(crate) greatest: Option<u32>,
}

/// Returns the advert of an update, if it is another edge's and no withdrawal.
fn foreign_in(own: Addr, update: &Update) -> Option<Advert>
    ensures { result ≡ foreign_in own update.now }
{
    if update.register().originator == own {
        return None;
    }
    match update.value().content {
        Content::Withdrawn => None,
        Content::Advert(advert) => Some(advert),
    }
}

/// Returns the greater of the two sequence numbers.
fn greater_of(greatest: Option<u32>, sequence: u32) -> u32
    ensures { result ≡ greater_of greatest sequence }
{
    match greatest {
        Some(greatest) if greatest >= sequence => greatest,
        _ => sequence,
    }
}

/// Adds one more advert, if there is one.
fn hear(so_far: Heard, advert: Option<Advert>) -> Heard
    ensures { result ≡ heard so_far advert }
{
    match advert {
        None => so_far,
        Some(advert) => Heard {
            is_static: so_far.is_static || advert.is_static,
            greatest: Some(greater_of(so_far.greatest, advert.sequence)),
        },
    }
}

/// Collects the adverts of other edges from all updates of an address.
fn hear_all(own: Addr, updates: UpdatesOf<'_>) -> Heard
    ensures { result ≡ heard_all own updates.entry nothing_heard }
{
    let mut so_far = Heard {
        is_static: false,
        greatest: None,
    };
    for update in updates {
        so_far = hear(so_far, foreign_in(own, &update));
    }
    so_far
}

/// Returns the number of the next own advert, from the adverts of all other edges.
fn seq_of(all: Heard) -> Seq
    ensures { result ≡ seq_of all }
{
    if all.is_static {
        return Seq::Static;
    }
    match all.greatest {
        None => Seq::Next(0),
        Some(u32::MAX) => Seq::Spent,
        Some(greatest) => Seq::Next(greatest + 1),
    }
}

/// Returns the sequence number of an edge's next own advert of an address (RFC 7432, section 15):
/// one above the greatest that other edges advertise for it, with any IP address or none, and 0 if
/// no other edge does. It takes no memory.
pub fn next_seq(table: &Table, own: Addr, vni: Vni, mac: Mac) -> Seq
    ensures value { result ≡ seq_for table.now own vni mac }
    ensures exact { IsSeqFor table.now own vni mac result }
{
    seq_of(hear_all(own, table.updates_of(vni, mac)))
}
