//! A table's groups in an index: an update goes into the group of its subject, and groups are
//! reported one after the other in the order of their subjects.
ghost use Rattle.std.specs.Prelude.{◌≡◌, [], OnErr};
ghost use Rattle.std.specs.List.{filter};
ghost use Rattle.std.specs.Option.{option_copied, unwrap_or};
ghost use Rattle.std.specs.Ordering.{is_lt};
ghost use Rattle.std.specs.Iterator.{YieldsFirstBy, item_count};
ghost use Rattle.ether_wire.specs.Ends.{Puts};
ghost use Rattle.route_join.specs.Table.{entries_of};
ghost use Rattle.route_join.specs.Subject.{subject_cmp, subject_of};
ghost use Rattle.route_join.specs.After.{updates_after};
ghost use Rattle.route_join.specs.Group.{AreAbout, IsSome, AreGroups, updates_in};
ghost use Rattle.route_join.specs.Inner.Group.{Takes};
ghost use Rattle.route_join.specs.Inner.Groups.{group_at, groups_along, AreIndexed};
ghost use Rattle.route_join.specs.Inner.Report.{report_lines};
ghost use Rattle.route_join.specs.Inner.Lines.{group_lines};

use crate::group::Group;
use crate::names::Names;
use crate::report::{LINE, put_owner, put_updates, subject_text};
use crate::salt::Salted;
use crate::subject::{Subject, subject_of};
use crate::table::Taken;
use crate::updates::UpdatesOf;
use ether_wire::{Device, Out};
use route_wire::{Register, Update};
use std::alloc::{AllocError, Global};
use std::collections::hash_map::Entry;
use std::collections::{BTreeSet, HashMap, btree_set};
use std::marker::Model;
use std::ops::Bound;

/// Groups by their subjects, and the subjects in the order of a report: a look-up needs only the
/// hash map, and only a new subject changes the order. Contracts see the groups in that order.
#[derive(Drop)]
pub(crate) struct Groups {
    alloc: Global,
    index: HashMap<Subject, Group, Salted>,
    order: BTreeSet<Subject>,
}

impl Model for Groups {
    ghost use Rattle.std.specs.Prelude.{List};
    ghost use Rattle.std.specs.Coded.{codes};
    ghost use Rattle.route_wire.specs.Fields.{Fields};
    ghost use Rattle.route_join.specs.Subject.{Subject};
    ghost use Rattle.route_join.specs.Inner.Groups.{groups_along, AreIndexed};

    ghost Value = { List (Subject × List Fields) };

    ghost coded = { Prim.hlevel codes };

    ghost view = { λ g. groups_along g.order.keys g.index.entries };

    ghost invariant = { λ g. AreIndexed g.order.keys g.index.entries };
}

/// Takes an update into the group of its subject, which is sought once. The room for a new group is
/// reserved before anything changes.
fn take_in(
    alloc: Global,
    index: &mut HashMap<Subject, Group, Salted>,
    order: &mut BTreeSet<Subject>,
    held: &mut usize,
    guess: usize,
    update: &Update,
) -> Result<Taken, AllocError>
    requires indexed { AreIndexed order.old.keys index.old.entries }
    requires groups { AreGroups (groups_along order.old.keys index.old.entries) }
    ensures indexed { AreIndexed order.new.keys index.new.entries }
    ensures takes { Takes (entries_of (updates_in (groups_along order.old.keys index.old.entries)))
        update.now held.old result
        (entries_of (updates_in (groups_along order.new.keys index.new.entries))) held.new }
    ensures groups { AreGroups (groups_along order.new.keys index.new.entries) }
    ensures err { OnErr result (groups_along order.new.keys index.new.entries
        ≡ groups_along order.old.keys index.old.entries) }
{
    let subject = subject_of(&update.register().key);
    match index.entry(subject) {
        Ok(Entry::Occupied(group)) => group.into_mut().take(alloc, held, guess, update),
        Ok(Entry::Vacant(group)) => {
            let Some(more) = held.checked_add(1) else {
                group.into_key();
                return Err(AllocError);
            };
            if order.insert(subject).is_err() {
                group.into_key();
                return Err(AllocError);
            }
            group.insert(Group::new(update));
            *held = more;
            Ok(Taken::Newer)
        }
        Err(_) => Err(AllocError),
    }
}

impl Groups {
    /// Returns an empty list of groups, whose subjects will be hashed with this salt. It takes no
    /// memory.
    pub(crate) fn new(alloc: Global, salt: u64) -> Self
        ensures { result ≡ [] }
    {
        Groups {
            alloc,
            index: HashMap::with_hasher(alloc, Salted::new(salt)),
            order: BTreeSet::new(alloc),
        }
    }

    /// Returns the group of a subject, if there is one.
    pub(crate) fn get(&self, subject: &Subject) -> Option<&Group>
        ensures { option_copied result ≡ group_at subject.now self.now }
    {
        self.index.get(subject)
    }

    /// Returns the groups, in the order of their subjects.
    pub(crate) fn iter(&self) -> GroupsIter<'_>
        ensures { result ≡ self.now }
    {
        GroupsIter {
            order: self.order.range(..),
            index: &self.index,
        }
    }

    /// Returns the updates of the registers after this one, of its own subject.
    pub(crate) fn rest_after(&self, register: &Register) -> UpdatesOf<'_>
        requires { AreGroups self.now }
        ensures { result ≡ updates_after register.now
            (unwrap_or (group_at (subject_of register.now.key) self.now) []) }
    {
        match self.get(&subject_of(&register.key)) {
            None => UpdatesOf::none(),
            Some(group) => group.updates_after(register),
        }
    }

    /// Returns the groups of the subjects after this one, in the order of their subjects.
    pub(crate) fn after(&self, subject: &Subject) -> GroupsIter<'_>
        ensures { result ≡ filter (λ g. is_lt (subject_cmp subject.now g.0)) self.now }
    {
        GroupsIter {
            order: self
                .order
                .range((Bound::Excluded(*subject), Bound::Unbounded)),
            index: &self.index,
        }
    }

    /// Takes an update into the group of its subject, and makes the group if there is none yet. A
    /// new register is one more held register. If memory is refused, nothing changes. In a list the
    /// update at the place `guess` is compared first.
    pub(crate) fn take(
        &mut self,
        held: &mut usize,
        guess: usize,
        update: &Update,
    ) -> Result<Taken, AllocError>
        requires { AreGroups self.old }
        ensures takes { Takes (entries_of (updates_in self.old)) update.now held.old result
            (entries_of (updates_in self.new)) held.new }
        ensures groups { AreGroups self.new }
        ensures err { OnErr result (self.new ≡ self.old) }
    {
        let alloc = self.alloc;
        take_in(alloc, &mut self.index, &mut self.order, held, guess, update)
    }
}

/// The groups in the order of their subjects, seen as the list of those that are left.
#[derive(Drop)]
pub(crate) struct GroupsIter<'a> {
    order: btree_set::Range<'a, Subject>,
    index: &'a HashMap<Subject, Group, Salted>,
}

impl<'a> Model for GroupsIter<'a> {
    ghost use Rattle.std.specs.Prelude.{List};
    ghost use Rattle.route_wire.specs.Fields.{Fields};
    ghost use Rattle.route_join.specs.Subject.{Subject};
    ghost use Rattle.route_join.specs.Inner.Groups.{groups_along, AreThere};

    ghost Value = { List (Subject × List Fields) };

    ghost view = { λ it. groups_along it.order it.index.now.entries };

    ghost invariant = { λ it. AreThere it.order it.index.now.entries };
}

impl<'a> Iterator for GroupsIter<'a> {
    type Item = (&'a Subject, &'a Group);

    ghost next_gives = { YieldsFirstBy (λ item. (item.0.now, item.1.now)) (λ left. left) };

    ghost remaining = { item_count (λ left. left) };

    fn next(&mut self) -> Option<(&'a Subject, &'a Group)> {
        let subject = self.order.next()?;
        let group = self.index.get(subject)?;
        Some((subject, group))
    }
}

/// Writes the report of a group: the lines of its registers, followed, if they are about an
/// address, by the line of its owner.
#[tactic(auto, using(ether_wire::proofs::Appending::with_text_twice))]
fn put_group<O: Out>(
    out: &mut O,
    line: &mut [u8; LINE],
    names: &mut Names,
    subject: &Subject,
    group: &Group,
) -> Result<(), Device>
    requires about { AreAbout subject.now (entries_of group.now) }
    requires some { IsSome (entries_of group.now) }
    ensures { Puts (O.end out.old) (O.end out.new) (report_lines (entries_of group.now)) result }
{
    let text = subject_text(subject);
    put_updates(out, line, names, &text, group.updates(subject))?;
    match subject.mac() {
        None => Ok(()),
        Some(_) => put_owner(out, line, names, &text, group.owner()),
    }
}

/// Writes the report of the groups, one after the other.
pub(crate) fn put_groups<O: Out>(out: &mut O, groups: &Groups) -> Result<(), Device>
    requires { AreGroups groups.now }
    ensures { Puts (O.end out.old) (O.end out.new) (group_lines groups.now) result }
{
    let mut line = [0; LINE];
    let mut names = Names::new();
    for (subject, group) in groups.iter() {
        put_group(out, &mut line, &mut names, subject, group)?;
    }
    Ok(())
}
