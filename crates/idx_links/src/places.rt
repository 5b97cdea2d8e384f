//! Rings of places: who comes behind whom, who before, and the mark of the list.
ghost use Rattle.std.specs.Prelude.{◌≡◌, ℕ, ◌+◌, ◌-◌, ◌^◌, ◌<◌, ◌≤◌, ◌++◌, List, length, map, take, replicate, slice_set, slice_index_or, vec_len, vec_capacity, IfOk, OnOk, OnErr, None, Some};
ghost use Rattle.std.specs.List.{range_with_len};
ghost use Rattle.idx_links.specs.Inner.Columns.{Columns, Fits, owners};

use std::alloc::{AllocError, Global};
use std::marker::Model;

// Places are fewer than this, so that their numbers and the lists' lengths have 32 bits.
const LIMIT: usize = 0xffff_ffff;

// The data of one place. It has 12 octets, so that a node's three places in `mac_arena` have 36, on
// one or two cache lines of 64: the fewer octets a large table has, the more of it stays in the
// caches.
#[derive(Clone, Copy)]
struct PlaceLinks {
    next: u32,
    prev: u32,
    // Of a list's own place, how many nodes the list has. Of a node's place, one more than the list
    // that it is on; 0 where it is on none.
    mark: u32,
}

/// Places in rings, the first of which are the lists' own, and the others the nodes'. All that is
/// known of a place stands together.
#[derive(Drop)]
pub(crate) struct Places {
    lists: usize,
    links: Vec<PlaceLinks>,
}

impl Model for Places {
    ghost Value = { Columns };

    ghost view = { λ p. record {
      next = map (λ x. x.next) p.links.items;
      prev = map (λ x. x.prev) p.links.items;
      owner = owners p.lists (map (λ x. x.mark) p.links.items);
      lens = take p.lists (map (λ x. x.mark) p.links.items);
    } };

    ghost invariant = { λ p. Fits p.lists (length p.links.items) };
}

impl Places {
    /// Each place leads to itself, and is on no list. Refused where the places are
    /// too many for 32 bits.
    pub(crate) fn new(alloc: Global, lists: usize, nodes: usize) -> Result<Places, AllocError>
        ensures next { IfOk result (λ p. p.next ≡ range_with_len 0 (lists + nodes)) }
        ensures prev { IfOk result (λ p. p.prev ≡ range_with_len 0 (lists + nodes)) }
        ensures owner { IfOk result (λ p. p.owner ≡ replicate (lists + nodes) None) }
        ensures lens { IfOk result (λ p. p.lens ≡ replicate lists 0) }
    {
        let Some(places) = lists.checked_add(nodes) else {
            return Err(AllocError)
        };
        if places >= LIMIT {
            return Err(AllocError);
        }
        let mut links = Vec::with_capacity(alloc, places)?;
        add_lone(&mut links, places);
        Ok(Places { lists, links })
    }

    /// How many lists there are. All places are counted by 32 bits.
    pub(crate) fn lists(&self) -> usize
        ensures count { result ≡ length self.now.lens }
        ensures small { length self.now.next < 2 ^ 32 }
    {
        self.lists
    }

    /// Returns the next place.
    pub(crate) fn next(&self, place: usize) -> usize
        requires { place < length self.now.next }
        ensures { result ≡ slice_index_or self.now.next place 0 }
    {
        self.links[place].next as usize
    }

    /// Returns the previous place.
    pub(crate) fn prev(&self, place: usize) -> usize
        requires { place < length self.now.next }
        ensures { result ≡ slice_index_or self.now.prev place 0 }
    {
        self.links[place].prev as usize
    }

    /// The list that the node's place is on.
    pub(crate) fn owner(&self, place: usize) -> Option<usize>
        requires node { length self.now.lens ≤ place }
        requires place { place < length self.now.next }
        ensures { result ≡ slice_index_or self.now.owner place None }
    {
        let mark = self.links[place].mark as usize;
        if mark == 0 {
            return None;
        }
        Some(mark - 1)
    }

    /// How many nodes the list has.
    pub(crate) fn len(&self, list: usize) -> usize
        requires { list < length self.now.lens }
        ensures { result ≡ slice_index_or self.now.lens list 0 }
    {
        self.links[list].mark as usize
    }

    /// Makes one place lead to another, and that one lead back.
    pub(crate) fn join(&mut self, before: usize, behind: usize)
        requires before { before < length self.old.next }
        requires behind { behind < length self.old.next }
        ensures next { self.new.next ≡ slice_set self.old.next before behind }
        ensures prev { self.new.prev ≡ slice_set self.old.prev behind before }
        ensures owner { self.new.owner ≡ self.old.owner }
        ensures lens { self.new.lens ≡ self.old.lens }
    {
        let link = &mut self.links[before];
        link.next = behind as u32;
        self.links[behind].prev = before as u32;
    }

    /// Puts the node's place on the list, as its owner and its length say.
    pub(crate) fn enter(&mut self, list: usize, place: usize)
        requires list { list < length self.old.lens }
        requires node { length self.old.lens ≤ place }
        requires place { place < length self.old.next }
        requires room { slice_index_or self.old.lens list 0 ≤ length self.old.next }
        ensures next { self.new.next ≡ self.old.next }
        ensures prev { self.new.prev ≡ self.old.prev }
        ensures owner { self.new.owner ≡ slice_set self.old.owner place (Some list) }
        ensures lens { self.new.lens
            ≡ slice_set self.old.lens list (slice_index_or self.old.lens list 0 + 1) }
    {
        let link = &mut self.links[place];
        link.mark = list as u32 + 1;
        self.links[list].mark += 1;
    }

    /// Takes the node's place off its list, as its owner and the list's length say.
    pub(crate) fn leave(&mut self, list: usize, place: usize)
        requires list { list < length self.old.lens }
        requires node { length self.old.lens ≤ place }
        requires place { place < length self.old.next }
        requires some { 0 < slice_index_or self.old.lens list 0 }
        ensures next { self.new.next ≡ self.old.next }
        ensures prev { self.new.prev ≡ self.old.prev }
        ensures owner { self.new.owner ≡ slice_set self.old.owner place None }
        ensures lens { self.new.lens
            ≡ slice_set self.old.lens list (slice_index_or self.old.lens list 0 - 1) }
    {
        self.links[place].mark = 0;
        self.links[list].mark -= 1;
    }

    /// Grows to this number of places. A new place leads to itself and is on no list. Also refused
    /// if the number does not fit into 32 bits.
    pub(crate) fn grow(&mut self, places: usize) -> Result<(), AllocError>
        ensures next { OnOk result
            (self.new.next ≡ self.old.next ++ range_with_len (length self.old.next)
            (places - length self.old.next)) }
        ensures prev { OnOk result
            (self.new.prev ≡ self.old.prev ++ range_with_len (length self.old.prev)
            (places - length self.old.prev)) }
        ensures owner { OnOk result
            (self.new.owner ≡ self.old.owner ++ replicate (places - length self.old.owner) None) }
        ensures lens { OnOk result (self.new.lens ≡ self.old.lens) }
        ensures err { OnErr result (self.new ≡ self.old) }
    {
        if places >= LIMIT {
            return Err(AllocError);
        }
        let have = self.links.len();
        if places <= have {
            return Ok(());
        }
        self.links.reserve(places - have)?;
        add_lone(&mut self.links, places);
        Ok(())
    }
}

/// Grows up to this number of places; each new one leads to itself.
fn add_lone(links: &mut Vec<PlaceLinks>, places: usize)
    requires more { vec_len links.old ≤ places }
    requires room { places ≤ vec_capacity links.old }
    requires small { places < 2 ^ 32 }
    ensures next { map (λ x. x.next) links.new.items ≡ map (λ x. x.next) links.old.items
        ++ range_with_len (vec_len links.old) (places - vec_len links.old) }
    ensures prev { map (λ x. x.prev) links.new.items ≡ map (λ x. x.prev) links.old.items
        ++ range_with_len (vec_len links.old) (places - vec_len links.old) }
    ensures marks { map (λ x. x.mark) links.new.items ≡ map (λ x. x.mark) links.old.items
        ++ replicate (places - vec_len links.old) 0 }
{
    for place in links.len()..places {
        links.push_reserved(PlaceLinks {
            next: place as u32,
            prev: place as u32,
            mark: 0,
        });
    }
}
