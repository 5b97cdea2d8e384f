//! Families of lists over the same nodes: a place for each node in each family.
ghost use Rattle.std.specs.Prelude.{◌≡◌, ℕ, ◌+◌, ◌<◌, ◌∷◌, ◌++◌, [], length, map, replicate, slice_get, slice_set, slice_index_or, IfOk, IfSome, IfNone, IsOk, Some, true, OnOk, OnErr};
ghost use Rattle.idx_links.specs.Links.{has, without, Apart, list_at, IsFree, IsLinked};
ghost use Rattle.idx_links.specs.Families.{Families, lists_of, families_of, AreNodes, IsFamily};
ghost use Rattle.idx_links.specs.Inner.Families.{AreStarts};

use crate::linked_lists::LinkedLists;
use std::alloc::{AllocError, Global};
use std::marker::Model;

/// `K` independent families of doubly linked lists over one arena of nodes.
///
/// A node is a number below the arena's size. In each family it is on at most one list, and the
/// families are independent. Families, and the lists of a family, are numbered from 0. Only `new`
/// and `grow` take memory; every other call takes a constant number of steps.
#[derive(Drop)]
pub struct Family<const K: usize> {
    nodes: usize,
    // The first list of each family among all lists, and the end of the last family.
    starts: Vec<usize>,
    // All lists. A node has a number for each family, which stand side by side.
    linked: LinkedLists,
}

impl<const K: usize> Model for Family<K> {
    ghost use Rattle.std.specs.Prelude.{◌≡◌};
    ghost use Rattle.idx_links.specs.Families.{Families, families_of, IsFamily};

    ghost Value = { Families };

    ghost view = { λ f. families_of K f.nodes f.starts.items f.linked };

    ghost invariant = { λ f. IsFamily K f.nodes f.starts.items f.linked };
}

impl<const K: usize> Family<K> {
    /// Returns families with empty lists over nodes that are on none of them. Also refused if the
    /// lists and nodes of all families do not fit into numbers of 32 bits.
    pub fn new(alloc: Global, lists: [usize; K], nodes: usize) -> Result<Self, AllocError>
        ensures nodes { IfOk result (λ f. f.nodes ≡ nodes) }
        ensures lists { IfOk result
            (λ f. f.families ≡ map (λ count. replicate count []) lists.entry) }
    {
        let counts = Vec::from_array(alloc, lists)?;
        let starts = starts_of(alloc, &counts)?;
        let Some(numbers) = nodes.checked_mul(K) else {
            return Err(AllocError)
        };
        let linked = LinkedLists::new(alloc, starts[K], numbers)?;
        Ok(Family {
            nodes,
            starts,
            linked,
        })
    }

    /// Adds nodes, which are on no list. If memory is refused, or the lists and nodes of all
    /// families do not fit into numbers of 32 bits, nothing changes. Adding no node is never
    /// refused.
    pub fn grow(&mut self, more: usize) -> Result<(), AllocError>
        ensures none { more ≡ 0 → IsOk result }
        ensures ok { OnOk result (self.new ≡ record self.old { nodes = self.old.nodes + more }) }
        ensures err { OnErr result (self.new ≡ self.old) }
    {
        if more == 0 {
            return Ok(());
        }
        let Some(nodes) = self.nodes.checked_add(more) else {
            return Err(AllocError)
        };
        let Some(numbers) = nodes.checked_mul(K) else {
            return Err(AllocError)
        };
        self.linked.grow(numbers)?;
        self.nodes = nodes;
        Ok(())
    }

    /// How many nodes there are, on lists or not.
    pub fn nodes(&self) -> usize
        ensures { result ≡ self.now.nodes }
    {
        self.nodes
    }

    /// The first node of the list.
    pub fn front(&self, family: usize, list: usize) -> Option<usize>
        requires family { family < K }
        requires list { list < length (lists_of self.now family) }
        ensures { result ≡ slice_get (list_at (lists_of self.now family) list) 0 }
    {
        let first = self.linked.front(self.starts[family] + list)?;
        Some(first / K)
    }

    /// Returns the node after this node on its list of the family.
    pub fn next(&self, family: usize, node: usize) -> Option<usize>
        requires family { family < K }
        requires node { node < self.now.nodes }
        requires linked { IsLinked (lists_of self.now family) node }
        ensures { (l i : ℕ) → slice_get (list_at (lists_of self.now family) l) i ≡ Some node
            → result ≡ slice_get (list_at (lists_of self.now family) l) (i + 1) }
    {
        let next = self.linked.next(node * K + family)?;
        Some(next / K)
    }

    /// Returns the number of nodes on the list. No node is on a list twice, and each node of a list
    /// is below the number of nodes.
    pub fn len(&self, family: usize, list: usize) -> usize
        requires family { family < K }
        requires list { list < length (lists_of self.now family) }
        ensures value { result ≡ length (list_at (lists_of self.now family) list) }
        ensures apart { (l : ℕ) → Apart (list_at (lists_of self.now family) l) }
        ensures below { AreNodes self.now family }
    {
        self.linked.len(self.starts[family] + list)
    }

    /// Which list of the family the node is on.
    pub fn list_of(&self, family: usize, node: usize) -> Option<usize>
        requires family { family < K }
        requires node { node < self.now.nodes }
        ensures on { IfSome result (λ l. has (list_at (lists_of self.now family) l) node ≡ true) }
        ensures only { IfSome result (λ l. (k : ℕ)
            → has (list_at (lists_of self.now family) k) node ≡ true → k ≡ l) }
        ensures within { IfSome result (λ l. l < length (lists_of self.now family)) }
        ensures off { IfNone result (IsFree (lists_of self.now family) node) }
    {
        let list = self.linked.list_of(node * K + family)?;
        Some(list - self.starts[family])
    }

    /// Puts the node at the end of the list.
    pub fn push_back(&mut self, family: usize, list: usize, node: usize)
        requires family { family < K }
        requires list { list < length (lists_of self.old family) }
        requires node { node < self.old.nodes }
        requires free { IsFree (lists_of self.old family) node }
        ensures nodes { self.new.nodes ≡ self.old.nodes }
        ensures families { let lists = lists_of self.old family in
            self.new.families
            ≡ slice_set self.old.families family
            (slice_set lists list (list_at lists list ++ node ∷ [])) }
    {
        self.linked
            .push_back(self.starts[family] + list, node * K + family);
    }

    /// Takes the node out of its list of the family.
    pub fn unlink(&mut self, family: usize, node: usize)
        requires family { family < K }
        requires node { node < self.old.nodes }
        requires linked { IsLinked (lists_of self.old family) node }
        ensures nodes { self.new.nodes ≡ self.old.nodes }
        ensures families { self.new.families
            ≡ slice_set self.old.families family (map (without node) (lists_of self.old family)) }
    {
        self.linked.unlink(node * K + family);
    }
}

/// Returns the first list of each family, and the end of the last one.
fn starts_of(alloc: Global, counts: &Vec<usize>) -> Result<Vec<usize>, AllocError>
    ensures { IfOk result (λ v. AreStarts counts.now.items v.items) }
{
    let mut starts = Vec::new(alloc);
    let mut end: usize = 0;
    starts.push(end)?;
    for count in counts.iter() {
        let Some(sum) = end.checked_add(*count) else {
            return Err(AllocError)
        };
        end = sum;
        starts.push(end)?;
    }
    Ok(starts)
}
