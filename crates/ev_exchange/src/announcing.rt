//! The edges of this process as a connection uses them: their tables, and the items that are due on
//! it: the updates that the edges announce, and the originators that the other side names.
ghost use Rattle.std.specs.Prelude.{◌≡◌, ◌∷◌, [], Option, List};
ghost use Rattle.ev_links.specs.Coming.{behind};
ghost use Rattle.ev_exchange.specs.SendLoop.{Told, has_table, has_due, IsReady};

use crate::sender::Sender;
use ether_wire::{Addr, Flushing};
use route_wire::Update;
use std::alloc::Global;

/// An edge's address, and the contents of its table in the order of a report.
#[derive(Drop)]
pub struct EdgeTable {
    /// The edge's address.
    pub address: Addr,
    /// Each register of its table with its value, including those of other edges.
    pub updates: Vec<Update>,
}

/// An item that is due on a connection.
#[derive(Clone, Copy, Drop)]
pub enum Due {
    /// An update that one of the edges announces: it is sent.
    Update(Update),
    /// An originator that the other side has named, by a record of it: its registers in the tables
    /// of the edges are sent back.
    Back(Addr),
}

/// Edges of this process, numbered from 1, which return their tables and announce updates.
pub trait Announcing {
    /// The trace of their results, in order; `None` if they keep no trace.
    ghost told: { Self → Option (List Told) };

    /// Returns the table of the edge with this number, or `None` if the edge has ended or memory is
    /// refused.
    fn table(&mut self, alloc: Global, edge: u64) -> Option<EdgeTable>
        ensures { told self.new ≡ behind (told self.old) (has_table edge result ∷ []) };

    /// Returns the next item, an update that one of them announces or an originator that the other
    /// side names, if it has come. It does not wait.
    fn ready(&mut self) -> Option<Due>
        ensures { IsReady (told self.old) (told self.new) result };

    /// Waits for the next item. Returns `None` if no more come. `sender` is the writer of the
    /// connection. It may not hold octets back while this call waits, since nobody can say how long
    /// that takes.
    fn wait<W: Flushing>(&mut self, sender: &Sender<W>) -> Option<Due>
        requires { sender.now.held ≡ [] }
        ensures { told self.new ≡ behind (told self.old) (has_due result ∷ []) };
}
