//! The flood list of a network (RFC 7432, section 7.3).
ghost use Rattle.std.specs.Prelude.{◌≡◌, ◌≤◌, [], length};
ghost use Rattle.route_join.specs.Table.{entries_of};
ghost use Rattle.route_join.specs.Flood.{is_flood, floods, flooding};

use crate::owner::advert_in;
use crate::updates::UpdatesOf;
use arrayvec::ArrayVec;
use ether_wire::{Addr, Vni};
use route_wire::{Key, Update};

/// Returns `true` if a key is that of a network's flood list.
fn is_flood(key: &Key, vni: Vni) -> bool
    ensures { result ≡ is_flood vni key.now }
{
    match key {
        Key::Flood(v) => *v == vni,
        Key::Mac(..) => false,
    }
}

/// Returns `true` if an update advertises a network's flood list.
fn floods(update: &Update, vni: Vni) -> bool
    ensures { result ≡ floods vni update.now.register update.now.value }
{
    is_flood(&update.register().key, vni) && advert_in(&update.value().content).is_some()
}

/// Puts the originators that advertise a network's flood list into an empty list, in the order of
/// the updates.
pub(crate) fn put_flood(updates: UpdatesOf<'_>, vni: Vni, flood: &mut ArrayVec<Addr, 64>)
    requires none { flood.old.items ≡ [] }
    requires few { length (flooding vni (entries_of updates)) ≤ 64 }
    ensures { flood.new.items ≡ flooding vni (entries_of updates.entry) }
{
    for update in updates {
        if floods(&update, vni) {
            flood.push(update.register().originator);
        }
    }
}
