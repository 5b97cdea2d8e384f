//! Doubly linked lists over one arena of nodes: a node is on one list at most.
ghost use Rattle.std.specs.Prelude.{◌≡◌, ℕ, ◌+◌, ◌<◌, ◌≤◌, ◌++◌, ◌∷◌, [], true, length, map, replicate, slice_get, slice_set, IfOk, OnOk, IfSome, IfNone, Some};
ghost use Rattle.idx_links.specs.Links.{Links, has, without, list_at, Apart, IsFree, IsLinked};
ghost use Rattle.idx_links.specs.Inner.Ring.{links_of, IsGood};

use crate::places::Places;
use std::alloc::{AllocError, Global};
use std::marker::Model;

/// Doubly linked lists over one arena of nodes. A node is on one list at most.
///
/// List `l` is a ring through place `l`, its sentinel; node `n` is at the place
/// `n` past the sentinels.
#[derive(Drop)]
pub(crate) struct LinkedLists {
    places: Places,
}

impl Model for LinkedLists {
    ghost Value = { Links };

    ghost view = { λ c. links_of c.places.next c.places.lens };

    ghost invariant = { λ c. IsGood c.places.next c.places.prev c.places.owner c.places.lens };
}

impl LinkedLists {
    /// Empty lists, over nodes that are on none of them. Refused where lists and nodes are too many
    /// for numbers of 32 bits, too.
    pub(crate) fn new(alloc: Global, lists: usize, nodes: usize) -> Result<LinkedLists, AllocError>
        ensures nodes { IfOk result (λ c. c.nodes ≡ nodes) }
        ensures lists { IfOk result (λ c. c.lists ≡ replicate lists []) }
    {
        let places = Places::new(alloc, lists, nodes)?;
        Ok(LinkedLists { places })
    }

    /// The first node of the list.
    pub(crate) fn front(&self, list: usize) -> Option<usize>
        requires { list < length self.now.lists }
        ensures { result ≡ slice_get (list_at self.now.lists list) 0 }
    {
        let count = self.places.lists();
        let place = self.places.next(list);
        if place < count {
            return None;
        }
        Some(place - count)
    }

    /// The node after the node, on its list.
    pub(crate) fn next(&self, node: usize) -> Option<usize>
        requires node { node < self.now.nodes }
        requires linked { IsLinked self.now.lists node }
        ensures { (l i : ℕ) → slice_get (list_at self.now.lists l) i ≡ Some node
            → result ≡ slice_get (list_at self.now.lists l) (i + 1) }
    {
        let count = self.places.lists();
        let place = self.places.next(count + node);
        if place < count {
            return None;
        }
        Some(place - count)
    }

    /// How many nodes the list has.
    pub(crate) fn len(&self, list: usize) -> usize
        requires { list < length self.now.lists }
        ensures value { result ≡ length (list_at self.now.lists list) }
        ensures apart { (l : ℕ) → Apart (list_at self.now.lists l) }
    {
        self.places.len(list)
    }

    /// Which list the node is on.
    pub(crate) fn list_of(&self, node: usize) -> Option<usize>
        requires { node < self.now.nodes }
        ensures on { IfSome result (λ l. has (list_at self.now.lists l) node ≡ true) }
        ensures only { IfSome result (λ l. (k : ℕ) → has (list_at self.now.lists k) node ≡ true
            → k ≡ l) }
        ensures within { IfSome result (λ l. l < length self.now.lists) }
        ensures off { IfNone result (IsFree self.now.lists node) }
    {
        self.places.owner(self.places.lists() + node)
    }

    /// Puts the node at the end of the list.
    pub(crate) fn push_back(&mut self, list: usize, node: usize)
        requires list { list < length self.old.lists }
        requires node { node < self.old.nodes }
        requires free { IsFree self.old.lists node }
        ensures nodes { self.new.nodes ≡ self.old.nodes }
        ensures lists { self.new.lists
            ≡ slice_set self.old.lists list (list_at self.old.lists list ++ node ∷ []) }
    {
        let place = self.places.lists() + node;
        let last = self.places.prev(list);
        self.places.join(last, place);
        self.places.join(place, list);
        self.places.enter(list, place);
    }

    /// Takes the node out of its list.
    pub(crate) fn unlink(&mut self, node: usize)
        requires node { node < self.old.nodes }
        requires linked { IsLinked self.old.lists node }
        ensures nodes { self.new.nodes ≡ self.old.nodes }
        ensures lists { self.new.lists ≡ map (without node) self.old.lists }
    {
        let place = self.places.lists() + node;
        let Some(list) = self.places.owner(place) else {
            unreachable!()
        };
        let before = self.places.prev(place);
        let behind = self.places.next(place);
        self.places.join(before, behind);
        self.places.join(place, place);
        self.places.leave(list, place);
    }

    /// Grows the lists to at least this number of nodes. A new node is on no list. Also refused if
    /// lists and nodes do not fit into numbers of 32 bits.
    pub(crate) fn grow(&mut self, nodes: usize) -> Result<(), AllocError>
        ensures lists { self.new.lists ≡ self.old.lists }
        ensures kept { self.old.nodes ≤ self.new.nodes }
        ensures enough { OnOk result (nodes ≤ self.new.nodes) }
    {
        let Some(places) = self.places.lists().checked_add(nodes) else {
            return Err(AllocError)
        };
        self.places.grow(places)?;
        Ok(())
    }
}
