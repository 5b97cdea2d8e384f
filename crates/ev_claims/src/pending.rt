//! The registers that an edge says something of, and those of them that wait to be announced.
ghost use Rattle.std.specs.Prelude.{◌≡◌, ◌++◌, ◌∷◌, [], ℕ, ◌≤◌, ◌<◌, ◌^◌, IfOk, IfSome, IsOk, OnOk, OnErr, Contains, drop, slice_get, length};
ghost use Rattle.ev_claims.specs.Pending.{marked};

use idx_links::Family;
use route_join::{RegisterKey, Salted};
use route_wire::Register;
use std::alloc::{AllocError, Global};
use std::collections::HashMap;
use std::marker::Model;

/// The registers of an edge's own updates, each with a node of one linked list, which has the
/// pending ones. Beside it a ring finds the register of a recent number at once: it is a guess,
/// since later numbers overwrite its places.
#[derive(Drop)]
pub struct Pending {
    links: Family<1>,
    registers: Vec<RegisterKey>,
    nodes: HashMap<RegisterKey, usize, Salted>,
    room: usize,
    marks: Vec<usize>,
}

impl Model for Pending {
    ghost use Rattle.std.specs.Coded.{codes};
    ghost use Rattle.ev_claims.specs.Inner.Pending.{Pending as Waiting, pending_of, IsPending};

    ghost Value = { Waiting };

    ghost coded = { Prim.hlevel codes };

    ghost view = { λ p. pending_of p.links p.registers.items };

    ghost invariant = { λ p. IsPending p.links p.registers.items p.nodes.entries p.room };
}

impl Pending {
    /// Nothing is known, and nothing waits. The ring has this many places, and registers are found
    /// by a hash under the salt.
    pub fn new(alloc: Global, places: usize, salt: u64) -> Result<Self, AllocError>
        ensures { IfOk result (λ p. p ≡ record { known = []; waiting = [] }) }
    {
        let links = Family::new(alloc, [1], 0)?;
        let marks = vec![in alloc; 0usize; places]?;
        Ok(Pending {
            links,
            registers: Vec::new(alloc),
            nodes: HashMap::with_hasher(alloc, Salted::new(salt)),
            room: 0,
            marks,
        })
    }

    /// Gives a register a node, unless it has one: then this takes no memory. If memory is refused,
    /// nothing changes.
    pub fn make_room(&mut self, register: &Register) -> Result<(), AllocError>
        ensures there { Contains self.old.known register.now → IsOk result }
        ensures waiting { self.new.waiting ≡ self.old.waiting }
        ensures known { OnOk result (Contains self.new.known register.now) }
        ensures kept { (r : Register) → Contains self.old.known r → Contains self.new.known r }
        ensures err { OnErr result (self.new ≡ self.old) }
    {
        if let Some(_node) = self.nodes.get(&RegisterKey::new(*register)) {
            return Ok(());
        }
        let registers = self.registers.as_slice();
        let node = registers.len();
        self.registers.reserve(1)?;
        spare_node(&mut self.links, &mut self.room, node)?;
        if self
            .nodes
            .insert(RegisterKey::new(*register), node)
            .is_err()
        {
            return Err(AllocError);
        }
        self.registers.push_reserved(RegisterKey::new(*register));
        Ok(())
    }

    /// Puts a register that has a node at the end of those that wait, unless it waits already. It
    /// was said under this number.
    pub fn mark(&mut self, register: Register, number: u64)
        requires { Contains self.old.known register }
        ensures { self.new ≡ record self.old { waiting = marked self.old.waiting register } }
    {
        let Some(node) = self.nodes.get(&RegisterKey::new(register)) else {
            return
        };
        let node = *node;
        note(&mut self.marks, number, node);
        if self.links.list_of(0, node).is_none() {
            self.links.push_back(0, 0, node);
        }
    }

    /// How many registers have a node.
    pub fn len(&self) -> usize
        ensures { result ≡ length self.now.known }
    {
        self.registers.as_slice().len()
    }

    /// How many registers wait.
    pub fn waiting(&self) -> usize
        ensures { result ≡ length self.now.waiting }
    {
        self.links.len(0, 0)
    }

    /// A register that has a node, by its node.
    pub fn register(&self, node: usize) -> Option<Register>
        ensures { result ≡ slice_get self.now.known node }
    {
        let named = self.registers.get(node)?;
        Some(named.register())
    }

    /// Returns the register that was marked under this number, or another one: the caller checks
    /// it.
    #[tactic(auto, using(crate::proofs::Queue::get_contains))]
    pub fn guess(&self, number: u64) -> Option<Register>
        ensures { IfSome result (Contains self.now.known) }
    {
        let marks = self.marks.as_slice();
        if marks.len() == 0 {
            return None;
        }
        let place = (number % marks.len() as u64) as usize;
        self.register(marks[place])
    }

    /// The register that waits longest.
    pub fn first(&self) -> Option<Register>
        ensures { result ≡ slice_get self.now.waiting 0 }
    {
        let Some(node) = self.links.front(0, 0) else {
            return None
        };
        let Some(named) = self.registers.get(node) else {
            return None
        };
        Some(named.register())
    }

    /// The one that waits longest waits no more.
    pub fn unmark_first(&mut self)
        ensures { self.new ≡ record self.old { waiting = drop 1 self.old.waiting } }
    {
        let Some(node) = self.links.front(0, 0) else {
            return
        };
        self.links.unlink(0, node);
    }
}

/// Grows the list until it has more than this number of nodes.
fn spare_node(links: &mut Family<1>, room: &mut usize, used: usize) -> Result<(), AllocError>
    requires counted { links.old.nodes ≡ room.old }
    requires small { room.old < 2 ^ 32 }
    requires fits { used ≤ room.old }
    ensures families { links.new.families ≡ links.old.families }
    ensures counted { links.new.nodes ≡ room.new }
    ensures small { room.new < 2 ^ 32 }
    ensures kept { room.old ≤ room.new }
    ensures enough { OnOk result (used < room.new) }
{
    if used < *room {
        return Ok(());
    }
    if *room >= 0xffff_fff0 {
        return Err(AllocError);
    }
    links.grow(1)?;
    *room += 1;
    Ok(())
}

/// A node was marked under a number.
fn note(marks: &mut Vec<usize>, number: u64, node: usize) {
    let marks = marks.as_mut_slice();
    if marks.len() == 0 {
        return;
    }
    let place = (number % marks.len() as u64) as usize;
    marks[place] = node;
}
