//! The updates of one subject, for any number of updates: in the order in which they came, found by
//! a tree of their registers, and the best advert among them.
ghost use Rattle.std.specs.Prelude.{◌≡◌, ◌<◌, Some, None, IfOk, IfSome, OnOk, OnErr, MatchOption, if◌then◌else◌};
ghost use Rattle.std.specs.FinMap.Entries.{put};
ghost use Rattle.std.specs.List.{slice_get};
ghost use Rattle.std.specs.Iterator.{YieldsFirstBy, item_count};
ghost use Rattle.route_wire.specs.Order.{is_newer, register_cmp};
ghost use Rattle.route_join.specs.Table.{entries_of, IsOrdered};
ghost use Rattle.route_join.specs.Group.{AreAbout};
ghost use Rattle.route_join.specs.After.{updates_after};
ghost use Rattle.route_join.specs.Inner.Group.{Takes, update_among, IsLeader, IsSilent};
ghost use Rattle.route_join.specs.Inner.WinnerTree.{owns};
ghost use Rattle.route_join.specs.Inner.LargeGroup.{IsLargeGroup, place_at, large_updates};

use crate::packed_update::PackedUpdate;
use crate::register_key::RegisterKey;
use crate::subject::Subject;
use crate::table::Taken;
use crate::winner_tree::{WinnerNode, best, own_at, push, replace, reserve, said_at};
use ether_wire::Addr;
use route_wire::{Register, Update};
use std::alloc::{AllocError, Global};
use std::collections::{BTreeMap, btree_map};
use std::marker::Model;
use std::ops::Bound;

/// Returns the place of a register, if it has one.
fn place_at(tree: &BTreeMap<RegisterKey, u32>, register: &Register) -> Option<u32>
    ensures { result ≡ place_at tree.now.entries register.now }
{
    match tree.get(&RegisterKey::new(*register)) {
        None => None,
        Some(place) => Some(*place),
    }
}

/// Returns `true` if an update is newer than the one at the place of its register.
fn is_newer_there(nodes: &[WinnerNode], place: u32, update: &Update) -> bool
    ensures { IfSome (slice_get (owns nodes.now) place)
        (λ was. result ≡ is_newer update.now.value was.value) }
{
    match own_at(nodes, place) {
        None => false,
        Some(was) => update.is_newer(was),
    }
}

/// Takes an update into the place of its register, which is sought once. A new register gets the
/// next place, and all memory for it is reserved before anything changes.
fn take_in(
    tree: &mut BTreeMap<RegisterKey, u32>,
    nodes: &mut Vec<WinnerNode>,
    held: &mut usize,
    update: &Update,
) -> Result<Taken, AllocError>
    requires { IsLargeGroup tree.old.entries nodes.old.items }
    ensures kept { IsLargeGroup tree.new.entries nodes.new.items }
    ensures takes { Takes (entries_of (large_updates tree.old.entries nodes.old.items))
        update.now held.old result
        (entries_of (large_updates tree.new.entries nodes.new.items)) held.new }
    ensures err { OnErr result (large_updates tree.new.entries nodes.new.items
        ≡ large_updates tree.old.entries nodes.old.items) }
{
    match tree.entry(RegisterKey::new(update.register())) {
        Ok(btree_map::Entry::Occupied(own)) => {
            let place = *own.get();
            if !is_newer_there(nodes, place, update) {
                return Ok(Taken::Known);
            }
            replace(nodes, place, update);
            Ok(Taken::Newer)
        }
        Ok(btree_map::Entry::Vacant(gap)) => {
            let Some(more) = held.checked_add(1) else {
                return Err(AllocError);
            };
            let Ok(place) = reserve(nodes) else {
                return Err(AllocError);
            };
            gap.insert(place);
            push(nodes, place, update);
            *held = more;
            Ok(Taken::Newer)
        }
        Err(_) => Err(AllocError),
    }
}

/// The updates of one subject, each once: in a winner tree for the best advert. A second tree has
/// the place of each register.
#[derive(Drop)]
pub(crate) struct LargeGroup {
    tree: BTreeMap<RegisterKey, u32>,
    nodes: Vec<WinnerNode>,
}

impl Model for LargeGroup {
    ghost use Rattle.std.specs.Prelude.{List};
    ghost use Rattle.std.specs.Coded.{codes};
    ghost use Rattle.route_wire.specs.Fields.{Fields};
    ghost use Rattle.route_join.specs.Inner.LargeGroup.{IsLargeGroup, large_updates};

    ghost Value = { List Fields };

    ghost coded = { Prim.hlevel codes };

    ghost view = { λ m. large_updates m.tree.entries m.nodes.items };

    ghost invariant = { λ m. IsLargeGroup m.tree.entries m.nodes.items };
}

impl LargeGroup {
    /// Returns the same updates, which are about this subject, in a tree.
    pub(crate) fn of(
        alloc: Global,
        subject: &Subject,
        updates: &[PackedUpdate],
    ) -> Result<Self, AllocError>
        requires ordered { IsOrdered updates.now }
        requires about { AreAbout subject.now (entries_of updates.now) }
        ensures { IfOk result (λ m. m ≡ updates.now) }
    {
        let mut tree = BTreeMap::new(alloc);
        let mut nodes = Vec::new(alloc);
        let mut held = 0;
        for update in updates {
            take_in(&mut tree, &mut nodes, &mut held, &update.about(subject))?;
        }
        Ok(LargeGroup { tree, nodes })
    }

    /// Returns the updates, in the order of their registers.
    pub(crate) fn updates(&self) -> LargeUpdates<'_>
        ensures value { result ≡ self.now }
        ensures ordered { IsOrdered self.now }
    {
        LargeUpdates {
            places: self.tree.range(..),
            nodes: &self.nodes,
        }
    }

    /// Returns the updates of the registers after this one, in the order of their registers.
    pub(crate) fn updates_after(&self, register: &Register) -> LargeUpdates<'_>
        ensures { result ≡ updates_after register.now self.now }
    {
        let after = Bound::Excluded(RegisterKey::new(*register));
        LargeUpdates {
            places: self.tree.range((after, Bound::Unbounded)),
            nodes: &self.nodes,
        }
    }

    /// Returns the update of a register, if there is one.
    pub(crate) fn register(&self, register: &Register) -> Option<Update>
        ensures { result ≡ update_among self.now register.now }
    {
        match said_at(&self.nodes, place_at(&self.tree, register)) {
            None => None,
            Some(update) => Some(*update),
        }
    }

    /// Returns the originator of the best advert, or `None` if nothing is advertised.
    pub(crate) fn owner(&self) -> Option<Addr>
        ensures { MatchOption result (IsSilent self.now) (IsLeader self.now) }
    {
        match best(&self.nodes) {
            None => None,
            Some(best) => Some(best.register().originator),
        }
    }

    /// Takes an update: its register then has the newer of the update and its value so far. A known
    /// register takes no memory, and a new one is one more held register.
    pub(crate) fn take(&mut self, held: &mut usize, update: &Update) -> Result<Taken, AllocError>
        ensures takes { Takes (entries_of self.old) update.now held.old result
            (entries_of self.new) held.new }
        ensures err { OnErr result (self.new ≡ self.old) }
    {
        take_in(&mut self.tree, &mut self.nodes, held, update)
    }
}

/// The updates in the order of their registers, seen as the list of those that are left.
#[derive(Drop)]
pub(crate) struct LargeUpdates<'a> {
    places: btree_map::Range<'a, RegisterKey, u32>,
    nodes: &'a [WinnerNode],
}

impl<'a> Model for LargeUpdates<'a> {
    ghost use Rattle.std.specs.Prelude.{List};
    ghost use Rattle.route_wire.specs.Fields.{Fields};
    ghost use Rattle.route_join.specs.Inner.WinnerTree.{owns};
    ghost use Rattle.route_join.specs.Inner.LargeGroup.{ArePlaced, updates_along};

    ghost Value = { List Fields };

    ghost view = { λ it. updates_along (owns it.nodes.now) it.places };

    ghost invariant = { λ it. ArePlaced (owns it.nodes.now) it.places };
}

impl<'a> Iterator for LargeUpdates<'a> {
    type Item = &'a Update;

    ghost next_gives = { YieldsFirstBy (λ item. item.now) (λ left. left) };

    ghost remaining = { item_count (λ left. left) };

    #[inline(always)]
    fn next(&mut self) -> Option<&'a Update> {
        let (_, place) = self.places.next()?;
        own_at(self.nodes, *place)
    }
}
