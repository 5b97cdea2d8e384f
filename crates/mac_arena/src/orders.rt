//! The orders in which the nodes of a learning table stand: three families of linked lists.
ghost use Rattle.std.specs.Prelude.{◌≡◌, ℕ, ◌+◌, ◌^◌, ◌<◌, ◌∷◌, ◌++◌, [], length, map, replicate, slice_get, true, false, Some, IfOk};
ghost use Rattle.std.specs.List.{range_with_len};
ghost use Rattle.idx_links.specs.Links.{has, without, list_at, IsFree, IsLinked};
ghost use Rattle.mac_arena.specs.Orders.{Orders};
ghost use Rattle.mac_arena.specs.Inner.Orders.{orders_of, IsOrders, joined};

use idx_links::Family;
use std::alloc::{AllocError, Global};
use std::marker::Model;

// ---- the families of lists, and the two lists of the last one

/// The family of the buckets' chains.
const CHAINS: usize = 0;

/// The family of the ports' lists.
const PORTS: usize = 1;

/// The family of the ageing list and the list of free nodes.
const AGES: usize = 2;

/// The ageing list.
const AGEING: usize = 0;

/// The list of free nodes.
const FREE: usize = 1;

/// The orders of the table's nodes: a chain for each bucket, a list for each port, the ageing list
/// with the longest silent node first, and the free nodes.
#[derive(Drop)]
pub(crate) struct NodeOrders {
    links: Family<3>,
}

impl Model for NodeOrders {
    ghost use Rattle.mac_arena.specs.Orders.{Orders};
    ghost use Rattle.mac_arena.specs.Inner.Orders.{orders_of, IsOrders};

    ghost Value = { Orders };

    ghost view = { λ o. orders_of o.links };

    ghost invariant = { λ o. IsOrders o.links };
}

impl NodeOrders {
    /// Every node is free.
    pub(crate) fn new(
        alloc: Global,
        buckets: usize,
        ports: usize,
        nodes: usize,
    ) -> Result<Self, AllocError>
        requires buckets { buckets < 2 ^ 32 }
        requires ports { ports < 2 ^ 32 }
        requires nodes { nodes < 2 ^ 32 }
        ensures { IfOk result
            (λ o. o ≡ record {
              nodes = nodes;
              chains = replicate buckets [];
              ports = replicate ports [];
              ageing = [];
              free = range_with_len 0 nodes;
            }) }
    {
        let mut links = Family::new(alloc, [buckets, ports, 2], nodes)?;
        for node in 0..nodes {
            links.push_back(AGES, FREE, node);
        }
        Ok(NodeOrders { links })
    }

    /// The first node of the bucket's chain.
    pub(crate) fn first_in_chain(&self, bucket: usize) -> Option<usize>
        requires { bucket < length self.now.chains }
        ensures { result ≡ slice_get (list_at self.now.chains bucket) 0 }
    {
        self.links.front(CHAINS, bucket)
    }

    /// Returns the node after this node on its chain.
    pub(crate) fn next_in_chain(&self, node: usize) -> Option<usize>
        requires node { node < self.now.nodes }
        requires linked { IsLinked self.now.chains node }
        ensures { (b i : ℕ) → slice_get (list_at self.now.chains b) i ≡ Some node
            → result ≡ slice_get (list_at self.now.chains b) (i + 1) }
    {
        self.links.next(CHAINS, node)
    }

    /// Returns the number of nodes on the bucket's chain.
    pub(crate) fn chain_len(&self, bucket: usize) -> usize
        requires { bucket < length self.now.chains }
        ensures { result ≡ length (list_at self.now.chains bucket) }
    {
        self.links.len(CHAINS, bucket)
    }

    /// The first node of the port's list.
    pub(crate) fn first_at_port(&self, port: usize) -> Option<usize>
        requires { port < length self.now.ports }
        ensures { result ≡ slice_get (list_at self.now.ports port) 0 }
    {
        self.links.front(PORTS, port)
    }

    /// Returns the node after this node on its port's list.
    pub(crate) fn next_at_port(&self, node: usize) -> Option<usize>
        requires node { node < self.now.nodes }
        requires linked { IsLinked self.now.ports node }
        ensures { (p i : ℕ) → slice_get (list_at self.now.ports p) i ≡ Some node
            → result ≡ slice_get (list_at self.now.ports p) (i + 1) }
    {
        self.links.next(PORTS, node)
    }

    /// Returns the number of nodes on the port's list.
    pub(crate) fn port_len(&self, port: usize) -> usize
        requires { port < length self.now.ports }
        ensures { result ≡ length (list_at self.now.ports port) }
    {
        self.links.len(PORTS, port)
    }

    /// Returns the node that has been silent longest.
    pub(crate) fn oldest(&self) -> Option<usize>
        ensures { result ≡ slice_get self.now.ageing 0 }
    {
        self.links.front(AGES, AGEING)
    }

    /// A free node.
    pub(crate) fn first_free(&self) -> Option<usize>
        ensures { result ≡ slice_get self.now.free 0 }
    {
        self.links.front(AGES, FREE)
    }

    /// Takes a free node into use: it goes to the end of its bucket's chain and of its port's list.
    pub(crate) fn enter(&mut self, node: usize, bucket: usize, port: usize)
        requires bucket { bucket < length self.old.chains }
        requires port { port < length self.old.ports }
        requires node { node < self.old.nodes }
        requires free { has self.old.free node ≡ true }
        requires ageless { has self.old.ageing node ≡ false }
        requires unchained { IsFree self.old.chains node }
        requires unported { IsFree self.old.ports node }
        ensures { self.new ≡ record self.old {
          chains = joined bucket node self.old.chains;
          ports = joined port node self.old.ports;
          free = without node self.old.free;
        } }
    {
        self.links.unlink(AGES, node);
        self.links.push_back(CHAINS, bucket, node);
        self.links.push_back(PORTS, port, node);
    }

    /// Puts a node that doesn't age, and isn't free, at the end of the ageing list.
    pub(crate) fn age(&mut self, node: usize)
        requires node { node < self.old.nodes }
        requires ageless { has self.old.ageing node ≡ false }
        requires used { has self.old.free node ≡ false }
        ensures { self.new ≡ record self.old { ageing = self.old.ageing ++ node ∷ [] } }
    {
        self.links.push_back(AGES, AGEING, node);
    }

    /// Takes a node out of the ageing list.
    pub(crate) fn hold(&mut self, node: usize)
        requires node { node < self.old.nodes }
        requires ageing { has self.old.ageing node ≡ true }
        requires used { has self.old.free node ≡ false }
        ensures { self.new ≡ record self.old { ageing = without node self.old.ageing } }
    {
        self.links.unlink(AGES, node);
    }

    /// Moves a node to the end of another port's list.
    pub(crate) fn shift(&mut self, node: usize, port: usize)
        requires port { port < length self.old.ports }
        requires node { node < self.old.nodes }
        requires linked { IsLinked self.old.ports node }
        requires once { (p : ℕ) → has (list_at (map (without node) self.old.ports) p) node ≡ false }
        ensures { self.new ≡ record self.old {
          ports = joined port node
              (map (without node) self.old.ports);
        } }
    {
        self.links.unlink(PORTS, node);
        self.links.push_back(PORTS, port, node);
    }

    /// Frees a node that doesn't age.
    pub(crate) fn leave(&mut self, node: usize)
        requires node { node < self.old.nodes }
        requires chained { IsLinked self.old.chains node }
        requires ported { IsLinked self.old.ports node }
        requires ageless { has self.old.ageing node ≡ false }
        requires used { has self.old.free node ≡ false }
        ensures { self.new ≡ record self.old {
          chains = map (without node) self.old.chains;
          ports = map (without node) self.old.ports;
          free = self.old.free ++ node ∷ [];
        } }
    {
        self.links.unlink(CHAINS, node);
        self.links.unlink(PORTS, node);
        self.links.push_back(AGES, FREE, node);
    }
}
