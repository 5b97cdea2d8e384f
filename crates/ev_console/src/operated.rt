//! Edges that run, as a console queries them.
ghost use Rattle.std.specs.Prelude.{◌≡◌, ℕ, Option, List, [], ◌∷◌, IfOk};
ghost use Rattle.ev_links.specs.Coming.{behind};
ghost use Rattle.ev_console.specs.Asking.{Asked, entered, page_seen, port_seen, view_seen, served_seen};

use ev_book::BookRefusal;
use ev_edge::Reply;
use ev_mailboxes::{EdgeNetworks, OperatorCommand, PortView};
use ev_view::EdgeQuestion;
use route_join::UpdatePage;
use route_wire::Register;
use std::alloc::{AllocError, Global};

/// The reason why an edge doesn't answer.
#[derive(Clone, Copy, Debug, PartialEq, Eq)]
pub enum Unreached {
    /// No edge has this number.
    NoEdge,
    /// The edge has ended.
    Ended,
}

/// Edges that run, numbered from 1, as a console queries them.
///
/// # Errors
///
/// Each call but `edges` returns `Unreached` if the edge doesn't answer.
pub trait Operated {
    /// The number of edges.
    ghost count: { Self → ℕ };

    /// The requests to the edges and their answers, in order, if that history is known.
    ghost asked: { Self → Option (List Asked) };

    /// The edge that a request names received the request and gave this answer, or no edge has
    /// that number.
    ghost gave: { Self → Asked → Type 0 };

    /// Returns the number of edges.
    fn edges(&self) -> u64
        ensures { result ≡ count self.now };

    /// Enters a step at the edge with this number, and returns the answer of its book.
    fn enter(
        &mut self,
        edge: u64,
        command: &OperatorCommand,
    ) -> Result<Result<Reply, BookRefusal>, Unreached>
        ensures asked { asked self.new
            ≡ behind (asked self.old) (entered edge command.now result ∷ []) }
        ensures gave { gave self.old (entered edge command.now result) }
        ensures count { count self.new ≡ count self.old };

    /// Returns the page of the report of the edge's table after this register, or the first page.
    fn page(
        &mut self,
        alloc: Global,
        edge: u64,
        after: Option<Register>,
    ) -> Result<Result<UpdatePage, AllocError>, Unreached>
        ensures asked { asked self.new
            ≡ behind (asked self.old) (page_seen edge after result ∷ []) }
        ensures gave { gave self.old (page_seen edge after result) }
        ensures after { IfOk result (λ answer. IfOk answer (λ page. page.after ≡ after)) }
        ensures count { count self.new ≡ count self.old };

    /// Returns the state of a port in the edge's spanning tree, or `None` if the edge has no port
    /// with this number.
    fn port(&mut self, edge: u64, port: u8) -> Result<Option<PortView>, Unreached>
        ensures asked { asked self.new
            ≡ behind (asked self.old) (port_seen edge port result ∷ []) }
        ensures gave { gave self.old (port_seen edge port result) }
        ensures count { count self.new ≡ count self.old };

    /// Returns the text that answers a question to the edge, with its number before each line.
    fn view(
        &mut self,
        alloc: Global,
        edge: u64,
        question: &EdgeQuestion,
    ) -> Result<Result<Vec<u8>, AllocError>, Unreached>
        ensures asked { asked self.new
            ≡ behind (asked self.old) (view_seen edge question.now result ∷ []) }
        ensures gave { gave self.old (view_seen edge question.now result) }
        ensures count { count self.new ≡ count self.old };

    /// Returns the address, ports and VNIs that the edge serves.
    fn served(
        &mut self,
        alloc: Global,
        edge: u64,
    ) -> Result<Result<EdgeNetworks, AllocError>, Unreached>
        ensures asked { asked self.new
            ≡ behind (asked self.old) (served_seen edge result ∷ []) }
        ensures gave { gave self.old (served_seen edge result) }
        ensures count { count self.new ≡ count self.old };
}
