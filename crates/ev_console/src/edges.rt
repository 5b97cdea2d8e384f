//! Running edges, as a console queries them by their numbers.
ghost use Rattle.std.specs.Prelude.{◌≡◌};

use crate::operated::{Operated, Unreached};
use crate::reached::{ManyEdges, OneEdge};
use ev_book::BookRefusal;
use ev_edge::Reply;
use ev_mailboxes::{EdgeNetworks, OperatorCommand, PortView};
use ev_view::EdgeQuestion;
use route_join::UpdatePage;
use route_wire::Register;
use std::alloc::{AllocError, Global};

/// Running edges that a console queries. The history of requests is `None`, since no clause
/// describes state under a lock. But each request goes to the edge that it names, and the answer
/// is that edge's (`gave`), as any edges show.
#[derive(Drop)]
pub(crate) struct Edges<M> {
    /// The edges.
    pub(crate) many: M,
}

impl<M: ManyEdges> Operated for Edges<M> {
    ghost use Rattle.std.specs.Prelude.{◌⊎◌, None};
    ghost use Rattle.ev_console.specs.Inner.Asking.{edge_of, IsUnknown};

    ghost count = { λ edges. M.count edges.many };

    ghost asked = { λ edges. None };

    ghost gave = { λ edges asked.
        (IsUnknown asked × M.lacks edges.many (edge_of asked))
        ⊎ ((edge : M.Edge) × M.Edge.gave edge asked) };

    fn edges(&self) -> u64 {
        self.many.edges()
    }

    fn enter(
        &mut self,
        edge: u64,
        command: &OperatorCommand,
    ) -> Result<Result<Reply, BookRefusal>, Unreached> {
        match self.many.reach(edge) {
            Some(one) => one.enter(command),
            None => Err(Unreached::NoEdge),
        }
    }

    fn page(
        &mut self,
        alloc: Global,
        edge: u64,
        after: Option<Register>,
    ) -> Result<Result<UpdatePage, AllocError>, Unreached> {
        match self.many.reach(edge) {
            Some(one) => one.page(alloc, after),
            None => Err(Unreached::NoEdge),
        }
    }

    fn port(&mut self, edge: u64, port: u8) -> Result<Option<PortView>, Unreached> {
        match self.many.reach(edge) {
            Some(one) => one.port(port),
            None => Err(Unreached::NoEdge),
        }
    }

    fn view(
        &mut self,
        alloc: Global,
        edge: u64,
        question: &EdgeQuestion,
    ) -> Result<Result<Vec<u8>, AllocError>, Unreached> {
        match self.many.reach(edge) {
            Some(one) => one.view(alloc, question),
            None => Err(Unreached::NoEdge),
        }
    }

    fn served(
        &mut self,
        alloc: Global,
        edge: u64,
    ) -> Result<Result<EdgeNetworks, AllocError>, Unreached> {
        match self.many.reach(edge) {
            Some(one) => one.served(alloc),
            None => Err(Unreached::NoEdge),
        }
    }
}
