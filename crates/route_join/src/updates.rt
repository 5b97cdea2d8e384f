//! The updates of a table, one after the other in the order of a report. They take no memory.
ghost use Rattle.std.specs.Prelude.{◌≡◌, [], Some};
ghost use Rattle.std.specs.Iterator.{YieldsFirst, item_count};
ghost use Rattle.route_join.specs.Table.{entries_of};
ghost use Rattle.route_join.specs.Group.{AreAbout, AreGroups, updates_in};
ghost use Rattle.route_join.specs.LargeGroup.{left_in_tree};
ghost use Rattle.route_join.specs.After.{updates_after};

use crate::groups::{Groups, GroupsIter};
use crate::large_group::LargeUpdates;
use crate::packed_update::PackedUpdate;
use crate::subject::{Subject, subject_of};
use ether_wire::Vni;
use route_wire::{Register, Update};
use std::marker::Model;

/// The updates of a MAC address, seen as the list of those that are left.
#[derive(Drop)]
pub struct UpdatesOf<'a> {
    subject: Subject,
    few: &'a [PackedUpdate],
    many: Option<LargeUpdates<'a>>,
}

impl<'a> Model for UpdatesOf<'a> {
    ghost use Rattle.std.specs.Prelude.{List, ◌++◌};
    ghost use Rattle.route_wire.specs.Fields.{Fields};
    ghost use Rattle.route_join.specs.Table.{entries_of};
    ghost use Rattle.route_join.specs.Group.{AreAbout};
    ghost use Rattle.route_join.specs.LargeGroup.{left_in_tree};

    ghost Value = { List Fields };

    ghost view = { λ it. it.few.now ++ left_in_tree it.many };

    ghost invariant = { λ it. AreAbout it.subject (entries_of it.few.now) };
}

impl<'a> UpdatesOf<'a> {
    /// Returns an empty iterator.
    pub(crate) fn none() -> Self
        ensures { result ≡ [] }
    {
        UpdatesOf::few(&Subject::flood(Vni::new(0)), &[])
    }

    /// Returns the updates of a list, which are about this subject.
    pub(crate) fn few(subject: &Subject, updates: &'a [PackedUpdate]) -> Self
        requires { AreAbout subject.now (entries_of updates.now) }
        ensures { result ≡ updates.now }
    {
        UpdatesOf {
            subject: *subject,
            few: updates,
            many: None,
        }
    }

    /// Returns the updates of a tree.
    pub(crate) fn many(subject: &Subject, updates: LargeUpdates<'a>) -> Self
        ensures { result ≡ updates.entry }
    {
        UpdatesOf {
            subject: *subject,
            few: &[],
            many: Some(updates),
        }
    }
}

impl<'a> Iterator for UpdatesOf<'a> {
    type Item = Update;

    ghost next_gives = { YieldsFirst (λ left. left) };

    ghost remaining = { item_count (λ left. left) };

    // inlined, so that an update isn't copied on its way into a loop
    #[inline(always)]
    fn next(&mut self) -> Option<Update> {
        if let Some((first, others)) = self.few.split_first() {
            self.few = others;
            return Some(first.about(&self.subject));
        }
        match &mut self.many {
            None => None,
            Some(updates) => match updates.next() {
                None => None,
                Some(first) => Some(*first),
            },
        }
    }
}

/// The updates of all registers, seen as the list of those that are left.
#[derive(Drop)]
pub struct Updates<'a> {
    first: UpdatesOf<'a>,
    groups: GroupsIter<'a>,
}

impl<'a> Model for Updates<'a> {
    ghost use Rattle.std.specs.Prelude.{List, ◌++◌};
    ghost use Rattle.route_wire.specs.Fields.{Fields};
    ghost use Rattle.route_join.specs.Group.{AreGroups, updates_in};

    ghost Value = { List Fields };

    ghost view = { λ it. it.first ++ updates_in it.groups };

    ghost invariant = { λ it. AreGroups it.groups };
}

impl<'a> Updates<'a> {
    /// Returns the updates of these groups.
    pub(crate) fn of(groups: &'a Groups) -> Self
        requires { AreGroups groups.now }
        ensures { result ≡ updates_in groups.now }
    {
        Updates {
            first: UpdatesOf::none(),
            groups: groups.iter(),
        }
    }

    /// Returns the updates of the registers after this one.
    pub(crate) fn after(groups: &'a Groups, register: &Register) -> Self
        requires { AreGroups groups.now }
        ensures { result ≡ updates_after register.now (updates_in groups.now) }
    {
        Updates {
            first: groups.rest_after(register),
            groups: groups.after(&subject_of(&register.key)),
        }
    }
}

impl<'a> Iterator for Updates<'a> {
    type Item = Update;

    ghost next_gives = { YieldsFirst (λ left. left) };

    ghost remaining = { item_count (λ left. left) };

    fn next(&mut self) -> Option<Update> {
        if let Some(update) = self.first.next() {
            return Some(update);
        }
        let (subject, group) = self.groups.next()?;
        self.first = group.updates(subject);
        self.first.next()
    }
}
