//! Updates at places, and the place of the best advert among them: each place knows the best one of
//! its own update and of those below it. Below place n are the places 2 n + 1 and 2 n + 2, as in a
//! heap.
ghost use Rattle.std.specs.Prelude.{◌≡◌, ◌≢◌, ◌+◌, ◌*◌, ◌<◌, ◌^◌, ◌++◌, ◌∷◌, ◌⊎◌, [], ℕ, None, Some, true, set, vec_len, vec_capacity, IfOk, OnOk};
ghost use Rattle.std.specs.List.{slice_get};
ghost use Rattle.std.specs.Option.{option_copied};
ghost use Rattle.route_join.specs.Inner.Group.{candidate_in, wins as against};
ghost use Rattle.route_join.specs.Inner.WinnerTree.{are_level, said_at, best_below, better_of, best_at, owns, IsSettledBut, AreSettled, IsBestOf};

use crate::owner::advert_in;
use crate::small_group::wins;
use route_wire::{Advert, Update};
use std::alloc::AllocError;
use std::cmp::Ordering;

/// An update at its place, with the place of the best advert among it and those of the places
/// below, if anything is advertised there.
// Places of 32 bits: a node takes 8 octets more than its update.
#[derive(Clone, Copy)]
pub(crate) struct WinnerNode {
    own: Update,
    best: Option<u32>,
}

/// Returns `true` if two adverts are equally good, so that the order of their registers decides
/// which one is better.
fn are_level(one: &Option<Advert>, other: &Option<Advert>) -> bool
    ensures { result ≡ are_level one.now other.now }
{
    match (one, other) {
        (Some(one), Some(other)) => {
            one.is_static == other.is_static && other.sequence == one.sequence
        }
        _ => false,
    }
}

/// Returns `true` if the advert of an update wins against that of another one. It compares
/// registers only if they decide.
fn wins_against(one: &Update, other: &Update) -> bool
    ensures { result ≡ against (candidate_in (Some one.now)) (candidate_in (Some other.now)) }
{
    let said = advert_in(&one.value().content);
    let best = advert_in(&other.value().content);
    if are_level(&said, &best) {
        wins(&said, &best, one.register().cmp(&other.register()))
    } else {
        wins(&said, &best, Ordering::Equal)
    }
}

/// Returns the update at a place, or `None` if the place doesn't exist.
pub(crate) fn own_at(nodes: &[WinnerNode], place: u32) -> Option<&Update>
    ensures { option_copied result ≡ slice_get (owns nodes.now) place }
{
    match nodes.get(place as usize) {
        None => None,
        Some(node) => Some(&node.own),
    }
}

/// Returns the update at the place of a best one, if there is one.
pub(crate) fn said_at(nodes: &[WinnerNode], best: Option<u32>) -> Option<&Update>
    ensures { option_copied result ≡ said_at (owns nodes.now) best }
{
    match best {
        None => None,
        Some(place) => own_at(nodes, place),
    }
}

/// Returns `true` if an update wins against another one, if there is one.
fn beats(update: &Update, other: Option<&Update>) -> bool
    ensures { result
        ≡ against (candidate_in (Some update.now)) (candidate_in (option_copied other.entry)) }
{
    match other {
        None => advert_in(&update.value().content).is_some(),
        Some(other) => wins_against(update, other),
    }
}

/// Returns the place of the better one of the best so far and another best.
fn better_of(nodes: &[WinnerNode], best: Option<u32>, other: Option<u32>) -> Option<u32>
    ensures { result ≡ better_of (owns nodes.now) best other }
{
    match said_at(nodes, other) {
        None => best,
        Some(update) => {
            if beats(update, said_at(nodes, best)) {
                other
            } else {
                best
            }
        }
    }
}

/// Returns the best stored at a place, or `None` if the place doesn't exist.
fn best_below(nodes: &[WinnerNode], place: usize) -> Option<u32>
    ensures { result ≡ best_below nodes.now place }
{
    match nodes.get(place) {
        None => None,
        Some(node) => node.best,
    }
}

/// Returns the best one of a place's own update and of the bests of the two places below.
fn best_at(nodes: &[WinnerNode], place: u32) -> Option<u32>
    ensures { result ≡ best_at nodes.now place }
{
    let below = 2 * place as usize;
    let best = better_of(nodes, None, Some(place));
    let best = better_of(nodes, best, best_below(nodes, below + 1));
    better_of(nodes, best, best_below(nodes, below + 2))
}

/// Returns `true` if a best one is unchanged, and is not the update that changed: then those above
/// are right.
fn is_as_before(best: Option<u32>, was: Option<u32>, changed: u32) -> bool
    ensures same { result ≡ true → best ≡ was }
    ensures other { result ≡ true → best ≢ Some changed }
{
    best == was && best != Some(changed)
}

/// Computes the best of a place again, on the way up from the place whose update was replaced. If
/// it returns `true`, the bests of all places are right.
fn renew(nodes: &mut Vec<WinnerNode>, at: u32, changed: u32) -> bool
    requires within { at < vec_len nodes.old }
    requires others { IsSettledBut nodes.old.items changed at }
    ensures len { vec_len nodes.new ≡ vec_len nodes.old }
    ensures owns { owns nodes.new.items ≡ owns nodes.old.items }
    ensures above { (p : ℕ) → (at ≡ 2 * p + 1) ⊎ (at ≡ 2 * p + 2)
        → IsSettledBut nodes.new.items changed p }
    ensures first { at ≡ 0 → AreSettled nodes.new.items }
    ensures all { result ≡ true → AreSettled nodes.new.items }
{
    let best = best_at(nodes, at);
    let was = best_below(nodes, at as usize);
    nodes[at as usize].best = best;
    is_as_before(best, was, changed)
}

/// Computes the bests again from the place whose update was replaced upwards, as long as they
/// change or are that update.
fn settle(nodes: &mut Vec<WinnerNode>, changed: u32)
    requires within { changed < vec_len nodes.old }
    requires others { IsSettledBut nodes.old.items changed changed }
    ensures owns { owns nodes.new.items ≡ owns nodes.old.items }
    ensures settled { AreSettled nodes.new.items }
{
    let mut at = changed;
    'up: loop {
        if renew(nodes, at, changed) {
            return;
        }
        if at == 0 {
            return;
        }
        at = (at - 1) / 2;
    }
}

/// Writes another update at a place.
pub(crate) fn replace(nodes: &mut Vec<WinnerNode>, place: u32, update: &Update)
    requires within { place < vec_len nodes.old }
    requires settled { AreSettled nodes.old.items }
    ensures owns { owns nodes.new.items ≡ set (owns nodes.old.items) place update.now }
    ensures settled { AreSettled nodes.new.items }
{
    nodes[place as usize].own = *update;
    settle(nodes, place);
}

/// Makes room for one more update, and returns its place. There are 2^32 places.
pub(crate) fn reserve(nodes: &mut Vec<WinnerNode>) -> Result<u32, AllocError>
    ensures items { nodes.new.items ≡ nodes.old.items }
    ensures place { IfOk result (λ place. place ≡ vec_len nodes.new) }
    ensures room { OnOk result (vec_len nodes.new < vec_capacity nodes.new) }
{
    let len = nodes.len();
    let Ok(place) = u32::try_from(len) else {
        return Err(AllocError);
    };
    if len == nodes.capacity() {
        nodes.reserve_exact(len / 16 + 1)?;
    }
    Ok(place)
}

/// Writes an update at the next place, for which there is room.
pub(crate) fn push(nodes: &mut Vec<WinnerNode>, place: u32, update: &Update)
    requires next { place ≡ vec_len nodes.old }
    requires room { vec_len nodes.old < vec_capacity nodes.old }
    requires settled { AreSettled nodes.old.items }
    ensures owns { owns nodes.new.items ≡ owns nodes.old.items ++ update.now ∷ [] }
    ensures settled { AreSettled nodes.new.items }
{
    nodes.push_reserved(WinnerNode {
        own: *update,
        best: None,
    });
    settle(nodes, place);
}

/// Returns the update with the best advert of all places, or `None` if nothing is advertised.
pub(crate) fn best(nodes: &[WinnerNode]) -> Option<&Update>
    requires { AreSettled nodes.now }
    ensures { IsBestOf (owns nodes.now) (option_copied result) }
{
    said_at(nodes, best_below(nodes, 0))
}
