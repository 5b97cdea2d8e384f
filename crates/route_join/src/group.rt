//! The updates of one subject: few updates are searched by a walk, and more of them are stored in a
//! tree.
ghost use Rattle.std.specs.Prelude.{◌≡◌, ℕ, Ok, ◌∷◌, [], ◌<◌, None, IfOk, OnErr, IfSome, IfNone, MatchOption};
ghost use Rattle.std.specs.FinMap.Entries.{find};
ghost use Rattle.route_wire.specs.Order.{register_cmp};
ghost use Rattle.route_join.specs.Table.{entries_of, IsOrdered};
ghost use Rattle.route_join.specs.Subject.{subject_of};
ghost use Rattle.route_join.specs.Group.{AreAbout};
ghost use Rattle.route_join.specs.After.{updates_after};
ghost use Rattle.route_join.specs.Inner.Group.{Takes, update_among, IsLeader, IsSilent};

use crate::after::rest_after;
use crate::large_group::LargeGroup;
use crate::packed_update::PackedUpdate;
use crate::place::place;
use crate::small_group::{SmallGroup, best_place, owner_at};
use crate::subject::{Subject, subject_of};
use crate::table::Taken;
use crate::updates::UpdatesOf;
use ether_wire::Addr;
use route_wire::{Register, Update};
use std::alloc::{AllocError, Global};
use std::marker::Model;
use std::slice;

/// The storage of updates.
#[derive(Drop)]
enum Storage {
    /// A single update, without memory of its own.
    One(PackedUpdate),
    /// In one list.
    SmallGroup(SmallGroup),
    /// In a tree. The box keeps small groups small.
    LargeGroup(Box<LargeGroup>),
}

/// Returns the same updates in a tree, if there is memory for it.
fn spread(alloc: Global, subject: &Subject, few: &SmallGroup) -> Result<Box<LargeGroup>, AllocError>
    requires { AreAbout subject.now (entries_of few.now) }
    ensures { IfOk result (λ many. many.value ≡ few.now) }
{
    let many = LargeGroup::of(alloc, subject, few.updates())?;
    match Box::new(alloc, many) {
        Ok(many) => Ok(many),
        Err(_) => Err(AllocError),
    }
}

/// Takes an update of the only register, which then has the newer one. Returns `None` if the update
/// is of another register.
fn take_one(own: &mut PackedUpdate, update: &Update) -> Option<Taken>
    requires { AreAbout (subject_of update.now.register.key) (entries_of (own.old ∷ [])) }
    ensures some { (held : ℕ) → IfSome result (λ taken. Takes (entries_of (own.old ∷ []))
        update.now held (Ok taken) (entries_of (own.new ∷ [])) held) }
    ensures none { IfNone result (find register_cmp update.now.register
        (entries_of (own.old ∷ [])) ≡ None) }
    ensures same { IfNone result (own.new ≡ own.old) }
{
    if place(slice::from_ref(own), &update.register()).is_err() {
        return None;
    }
    if !own.is_older(update) {
        return Some(Taken::Known);
    }
    *own = PackedUpdate::of(update);
    Some(Taken::Newer)
}

/// The updates of one subject in the order of their registers, and the best advert among them, if
/// anything is advertised.
#[derive(Drop)]
pub(crate) struct Group {
    kept: Storage,
}

impl Model for Group {
    ghost use Rattle.std.specs.Prelude.{List};
    ghost use Rattle.std.specs.Coded.{codes};
    ghost use Rattle.route_wire.specs.Fields.{Fields};
    ghost use Rattle.route_join.specs.Inner.Storage.{stored_updates};

    ghost Value = { List Fields };

    ghost coded = { Prim.hlevel codes };

    ghost view = { λ g. stored_updates g.kept };
}

impl Group {
    /// Returns a group of one update. It takes no memory.
    pub(crate) fn new(update: &Update) -> Self
        ensures { result ≡ update.now ∷ [] }
    {
        Group {
            kept: Storage::One(PackedUpdate::of(update)),
        }
    }

    /// Returns the updates, which are about this subject, in the order of their registers.
    pub(crate) fn updates(&self, subject: &Subject) -> UpdatesOf<'_>
        requires { AreAbout subject.now (entries_of self.now) }
        ensures value { result ≡ self.now }
        ensures ordered { IsOrdered self.now }
    {
        match &self.kept {
            Storage::One(own) => UpdatesOf::few(subject, slice::from_ref(own)),
            Storage::SmallGroup(few) => UpdatesOf::few(subject, few.updates()),
            Storage::LargeGroup(many) => UpdatesOf::many(subject, many.updates()),
        }
    }

    /// Returns the updates of the registers after this one, in the order of their registers. The
    /// updates before them aren't passed one by one, unless there are few.
    #[tactic(auto, using(crate::proofs::Afters::about_rest))]
    pub(crate) fn updates_after(&self, register: &Register) -> UpdatesOf<'_>
        requires { AreAbout (subject_of register.now.key) (entries_of self.now) }
        ensures { result ≡ updates_after register.now self.now }
    {
        let subject = subject_of(&register.key);
        match &self.kept {
            Storage::One(own) => {
                UpdatesOf::few(&subject, rest_after(slice::from_ref(own), register))
            }
            Storage::SmallGroup(few) => {
                UpdatesOf::few(&subject, rest_after(few.updates(), register))
            }
            Storage::LargeGroup(many) => UpdatesOf::many(&subject, many.updates_after(register)),
        }
    }

    /// Returns the update of a register, if there is one.
    pub(crate) fn register(&self, register: &Register) -> Option<Update>
        requires { AreAbout (subject_of register.now.key) (entries_of self.now) }
        ensures { result ≡ update_among self.now register.now }
    {
        match &self.kept {
            Storage::One(own) => match place(slice::from_ref(own), register) {
                Ok(_) => Some(own.about(&subject_of(&register.key))),
                Err(_) => None,
            },
            Storage::SmallGroup(few) => few.register(register),
            Storage::LargeGroup(many) => many.register(register),
        }
    }

    /// Returns the originator of the best advert, or `None` if nothing is advertised.
    pub(crate) fn owner(&self) -> Option<Addr>
        ensures { MatchOption result (IsSilent self.now) (IsLeader self.now) }
    {
        match &self.kept {
            Storage::One(own) => owner_at(slice::from_ref(own), best_place(slice::from_ref(own))),
            Storage::SmallGroup(few) => few.owner(),
            Storage::LargeGroup(many) => many.owner(),
        }
    }

    /// Puts the updates of a list into a tree. If there is no memory for it, they stay in the list.
    #[inline(never)]
    fn grow(&mut self, alloc: Global, subject: &Subject)
        requires { AreAbout subject.now (entries_of self.old) }
        ensures { self.new ≡ self.old }
    {
        if let Storage::SmallGroup(few) = &self.kept {
            if let Ok(many) = spread(alloc, subject, few) {
                self.kept = Storage::LargeGroup(many);
            }
        }
    }

    /// Puts the updates into a tree if there are too many for a list.
    #[inline(always)]
    fn settle(&mut self, alloc: Global, subject: &Subject)
        requires { AreAbout subject.now (entries_of self.old) }
        ensures { self.new ≡ self.old }
    {
        let is_large = match &self.kept {
            Storage::One(_) => false,
            Storage::SmallGroup(few) => few.is_large(),
            Storage::LargeGroup(_) => false,
        };
        if is_large {
            self.grow(alloc, subject);
        }
    }

    /// Takes an update into the current storage.
    fn take_stored(
        &mut self,
        alloc: Global,
        held: &mut usize,
        guess: usize,
        update: &Update,
    ) -> Result<Taken, AllocError>
        requires { AreAbout (subject_of update.now.register.key) (entries_of self.old) }
        ensures takes { Takes (entries_of self.old) update.now held.old result
            (entries_of self.new) held.new }
        ensures err { OnErr result (self.new ≡ self.old) }
    {
        match &mut self.kept {
            Storage::One(own) => match take_one(own, update) {
                Some(taken) => Ok(taken),
                None => {
                    let own = own.again(&subject_of(&update.register().key));
                    let mut few = SmallGroup::new(alloc, own)?;
                    let taken = few.take(held, guess, update)?;
                    self.kept = Storage::SmallGroup(few);
                    Ok(taken)
                }
            },
            Storage::SmallGroup(few) => few.take(held, guess, update),
            Storage::LargeGroup(many) => many.take(held, update),
        }
    }

    /// Takes an update: its register then has the newer of the update and its value so far. A known
    /// register takes no memory, and a new one is one more held register. In a list the update at
    /// the place `guess` is compared first.
    pub(crate) fn take(
        &mut self,
        alloc: Global,
        held: &mut usize,
        guess: usize,
        update: &Update,
    ) -> Result<Taken, AllocError>
        requires { AreAbout (subject_of update.now.register.key) (entries_of self.old) }
        ensures takes { Takes (entries_of self.old) update.now held.old result
            (entries_of self.new) held.new }
        ensures err { OnErr result (self.new ≡ self.old) }
    {
        let before = *held;
        let taken = self.take_stored(alloc, held, guess, update);
        if *held != before {
            self.settle(alloc, &subject_of(&update.register().key));
        }
        taken
    }
}
