//! A few updates of one subject in the order of their registers, and the best advert among them.
ghost use Rattle.std.specs.Prelude.{◌≡◌, ◌≢◌, true, Some, ◌∷◌, [], ◌+◌, ◌<◌, ◌≤◌, ◌^◌, vec_len, is_ok, Ok, Err, None, IfOk, IfSome, OnOk, OnErr, MatchOption, if◌then◌else◌};
ghost use Rattle.std.specs.List.{insert};
ghost use Rattle.std.specs.FinMap.Entries.{put};
ghost use Rattle.route_wire.specs.Order.{register_cmp};
ghost use Rattle.route_join.specs.Table.{entries_of, IsOrdered};
ghost use Rattle.route_join.specs.Inner.Place.{place_of};
ghost use Rattle.route_join.specs.Owner.{advert_in};
ghost use Rattle.route_join.specs.Subject.{subject_of};
ghost use Rattle.route_join.specs.Group.{AreAbout};
ghost use Rattle.route_join.specs.Inner.Group.{told, Takes, update_among, said_at, wins_by, better_place, stays_best, moved, HasWinner, IsLeader, IsSilent};

use crate::owner::{advert_in, is_better};
use crate::packed_update::PackedUpdate;
use crate::place::{place, place_near};
use crate::subject::subject_of;
use crate::table::Taken;
use ether_wire::Addr;
use route_wire::{Advert, Register, Update};
use std::alloc::{AllocError, Global};
use std::cmp::Ordering;
use std::marker::Model;

/// Returns the advert of the update at a place.
fn said_at(updates: &[PackedUpdate], at: usize) -> Option<Advert>
    ensures { result ≡ said_at updates.now at }
{
    let update = updates.get(at)?;
    advert_in(&update.value().content)
}

/// Returns `true` if the first advert wins against the second one, given the order of their
/// registers.
pub(crate) fn wins(one: &Option<Advert>, other: &Option<Advert>, order: Ordering) -> bool
    ensures { result ≡ wins_by one.now other.now order }
{
    match (one, other) {
        (None, _) => false,
        (Some(_), None) => true,
        (Some(one), Some(other)) => is_better(one, other, order),
    }
}

/// Returns the winner's place, once the update at a place may win too. The order of registers is
/// that of their places.
#[tactic(auto, using(crate::proofs::Within::wins_alone, crate::proofs::Within::wins_at))]
fn better_place(updates: &[PackedUpdate], at: usize, winner: Option<usize>) -> Option<usize>
    requires { IsOrdered updates.now }
    ensures { result ≡ better_place updates.now at winner }
{
    let (best, order) = match winner {
        None => (None, Ordering::Less),
        Some(i) => (said_at(updates, i), at.cmp(&i)),
    };
    if wins(&said_at(updates, at), &best, order) {
        Some(at)
    } else {
        winner
    }
}

/// Returns the place of the best advert among updates in the order of their registers.
pub(crate) fn best_place(updates: &[PackedUpdate]) -> Option<usize>
    requires { IsOrdered updates.now }
    ensures { HasWinner updates.now (told updates.now) result }
{
    let mut winner = None;
    for at in 0..updates.len() {
        winner = better_place(updates, at, winner);
    }
    winner
}

/// Returns the originator of the winner, if there is one.
pub(crate) fn owner_at(updates: &[PackedUpdate], winner: Option<usize>) -> Option<Addr>
    requires { HasWinner updates.now (told updates.now) winner }
    ensures { MatchOption result (IsSilent updates.now) (IsLeader updates.now) }
{
    match winner {
        None => None,
        Some(at) => Some(updates[at].originator()),
    }
}

/// Returns `true` if a winner with a new content is still the best, because its new advert is no
/// worse.
fn stays_best(was: &Option<Advert>, now: &Option<Advert>) -> bool
    ensures { result ≡ stays_best was.now now.now }
{
    match (was, now) {
        (Some(was), Some(now)) => !is_better(was, now, Ordering::Equal),
        _ => false,
    }
}

/// Returns `true` if the advert of this update is no worse than that of the update which it
/// replaces.
#[inline(never)]
fn stays_there(updates: &[PackedUpdate], at: usize, update: &Update) -> bool
    ensures { result ≡ stays_best (said_at updates.now at) (advert_in update.now.value.content) }
{
    stays_best(&said_at(updates, at), &advert_in(&update.value().content))
}

/// Returns `true` only if the winner stays the best one where this update replaces it. Nothing is
/// compared if the winner is at another place.
#[inline(always)]
fn stays_winner(updates: &[PackedUpdate], at: usize, winner: Option<usize>, update: &Update) -> bool
    ensures { result ≡ true
        → stays_best (said_at updates.now at) (advert_in update.now.value.content) ≡ true }
{
    winner == Some(at) && stays_there(updates, at, update)
}

/// Returns the winner's place after the update at a place was replaced. It searches for the winner
/// again only if the winner's update was replaced and the new one is worse.
#[inline(always)]
fn winner_after(
    updates: &[PackedUpdate],
    at: usize,
    winner: Option<usize>,
    stays: bool,
) -> Option<usize>
    requires ordered { IsOrdered updates.now }
    requires other { winner ≢ Some at
        → HasWinner updates.now (told updates.now) (better_place updates.now at winner) }
    requires same { winner ≡ Some at → stays ≡ true
        → HasWinner updates.now (told updates.now) winner }
    ensures { HasWinner updates.now (told updates.now) result }
{
    if winner != Some(at) {
        better_place(updates, at, winner)
    } else if stays {
        winner
    } else {
        best_place(updates)
    }
}

/// Returns the place of a winner after an update was inserted at a place.
fn moved(at: usize, winner: Option<usize>) -> Option<usize>
    requires { IfSome winner (λ i. i + 1 < 2 ^ 64) }
    ensures { result ≡ moved at winner }
{
    match winner {
        None => None,
        Some(i) => Some(if at <= i { i + 1 } else { i }),
    }
}

/// Inserts an update at a place. A full group grows by a sixteenth: groups are small and many, and
/// doubling each would leave a third of a large table's memory unused. At the end, where more than
/// half of the updates come, `insert` would copy the update three times more.
#[tactic(auto, using(crate::proofs::Places::at_end))]
fn insert_at(
    updates: &mut Vec<PackedUpdate>,
    at: usize,
    update: PackedUpdate,
) -> Result<(), AllocError>
    requires { at ≤ vec_len updates.old }
    ensures { updates.new.items
        ≡ (if is_ok result then insert updates.old.items at update else updates.old.items) }
{
    let len = updates.len();
    if len == updates.capacity() {
        updates.reserve_exact(len / 16 + 1)?;
    }
    if at == len {
        updates.push_reserved(update);
        return Ok(());
    }
    match updates.insert(at, update) {
        Ok(()) => Ok(()),
        Err(_) => Err(AllocError),
    }
}

/// The maximum number of updates that are searched by a walk: the next updates are on their way
/// from memory while one is compared. More updates are stored in a tree.
const SMALL_GROUP: usize = 32;

/// A few updates of one subject in the order of their registers, with the place of the best advert
/// among them, if anything is advertised.
#[derive(Drop)]
pub(crate) struct SmallGroup {
    updates: Vec<PackedUpdate>,
    winner: Option<usize>,
}

impl Model for SmallGroup {
    ghost use Rattle.std.specs.Prelude.{List};
    ghost use Rattle.std.specs.Coded.{codes};
    ghost use Rattle.route_wire.specs.Fields.{Fields};
    ghost use Rattle.route_join.specs.Inner.Group.{IsGroup};

    ghost Value = { List Fields };

    ghost coded = { Prim.hlevel codes };

    ghost view = { λ g. g.updates.items };

    ghost invariant = { λ g. IsGroup g.updates.items g.winner };
}

impl SmallGroup {
    /// Returns a group of this update only, with room for a second one.
    pub(crate) fn new(alloc: Global, update: PackedUpdate) -> Result<Self, AllocError>
        ensures { IfOk result (λ g. g ≡ update ∷ []) }
    {
        let mut updates = Vec::new(alloc);
        updates.reserve_exact(2)?;
        updates.push_reserved(update);
        let winner = best_place(&updates);
        Ok(SmallGroup { updates, winner })
    }

    /// Returns the updates, in the order of their registers.
    pub(crate) fn updates(&self) -> &[PackedUpdate]
        ensures value { result.now ≡ self.now }
        ensures ordered { IsOrdered self.now }
    {
        &self.updates
    }

    /// Returns `true` if there are too many updates for a walk.
    pub(crate) fn is_large(&self) -> bool {
        self.updates.len() > SMALL_GROUP
    }

    /// Returns the update of a register, if there is one.
    pub(crate) fn register(&self, register: &Register) -> Option<Update>
        requires { AreAbout (subject_of register.now.key) (entries_of self.now) }
        ensures { result ≡ update_among self.now register.now }
    {
        match place(&self.updates, register) {
            Ok(at) => Some(self.updates[at].about(&subject_of(&register.key))),
            Err(_) => None,
        }
    }

    /// Returns the originator of the best advert, or `None` if nothing is advertised.
    pub(crate) fn owner(&self) -> Option<Addr>
        ensures { MatchOption result (IsSilent self.now) (IsLeader self.now) }
    {
        owner_at(&self.updates, self.winner)
    }

    /// Writes a newer update at the place of its register.
    #[inline(always)]
    fn replace(&mut self, at: usize, update: &Update)
        requires { place_of self.old update.now.register ≡ Ok at }
        ensures { entries_of self.new ≡ put register_cmp update.now.register update.now.value
            (entries_of self.old) }
    {
        let stays = stays_winner(&self.updates, at, self.winner, update);
        self.updates[at] = PackedUpdate::of(update);
        self.winner = winner_after(&self.updates, at, self.winner, stays);
    }

    /// Inserts the first update of a register at its place.
    fn insert(&mut self, at: usize, update: &Update) -> Result<(), AllocError>
        requires { place_of self.old update.now.register ≡ Err at }
        ensures ok { OnOk result
            (entries_of self.new ≡ put register_cmp update.now.register update.now.value
            (entries_of self.old)) }
        ensures err { OnErr result (self.new ≡ self.old) }
    {
        if insert_at(&mut self.updates, at, PackedUpdate::of(update)).is_err() {
            return Err(AllocError);
        }
        self.winner = better_place(&self.updates, at, moved(at, self.winner));
        Ok(())
    }

    /// Takes an update: its register then has the newer of the update and its value so far. A known
    /// register takes no memory, and a new one is one more held register. The update at the place
    /// `guess` is compared first.
    #[inline(always)]
    pub(crate) fn take(
        &mut self,
        held: &mut usize,
        guess: usize,
        update: &Update,
    ) -> Result<Taken, AllocError>
        requires { AreAbout (subject_of update.now.register.key) (entries_of self.old) }
        ensures takes { Takes (entries_of self.old) update.now held.old result
            (entries_of self.new) held.new }
        ensures err { OnErr result (self.new ≡ self.old) }
    {
        match place_near(&self.updates, &update.register(), guess) {
            Ok(at) => {
                if !self.updates[at].is_older(update) {
                    return Ok(Taken::Known);
                }
                self.replace(at, update);
                Ok(Taken::Newer)
            }
            Err(at) => {
                let Some(more) = held.checked_add(1) else {
                    return Err(AllocError);
                };
                if self.insert(at, update).is_err() {
                    return Err(AllocError);
                }
                *held = more;
                Ok(Taken::Newer)
            }
        }
    }
}
