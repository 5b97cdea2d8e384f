//! Access to running edges: the caller that waits until they end can send each of them a step, or a
//! query about its state.
ghost use Rattle.std.specs.Prelude.{◌≡◌, ◌-◌, IfSome, IfOk, option_map, vec_len};
ghost use Rattle.ev_mailboxes.specs.Boards.{GivesLinks};

use crate::boards::Boards;
use crate::outbox::Outbox;
use crate::outboxes::Joined;
use crate::peers::Mailboxes;
use crate::request::{EdgeNetworks, OperatorCommand, PortView, Reading, Request, begun_after};
use crate::shared_mailbox::SharedMailbox;
use crate::{LinkCounts, Refused};
use ev_book::{BookRefusal, Naming, Outside, Told};
use ev_edge::Reply;
use ev_view::EdgeQuestion;
use route_join::UpdatePage;
use route_wire::{Register, Update};
use std::alloc::{AllocError, Global};
use std::sync::Wait;

/// The running edges. `J` names their history.
#[derive(Drop)]
pub struct Running<'x, J: Naming> {
    mailboxes: &'x Mailboxes<Told<J>>,
    boards: &'x Boards,
    /// The right to bring in updates of other processes, if they may come in.
    outside: Option<&'x Outside<J>>,
}

impl<'x, J: Naming> Clone for Running<'x, J> {
    fn clone(&self) -> Result<Self, AllocError> {
        Ok(*self)
    }
}

impl<'x, J: Naming> Copy for Running<'x, J> {}

impl<'x, J: Naming> Running<'x, J> {
    /// Returns the edges of these mailboxes and boards. Updates of other processes come in if there
    /// is a right to bring them in.
    pub fn new(
        mailboxes: &'x Mailboxes<Told<J>>,
        boards: &'x Boards,
        outside: Option<&'x Outside<J>>,
    ) -> Self
        ensures mailboxes { result.mailboxes.now ≡ mailboxes.now }
        ensures boards { result.boards.now ≡ boards.now }
    {
        Running {
            mailboxes,
            boards,
            outside,
        }
    }

    /// Returns the number of edges.
    pub fn edges(&self) -> usize
        ensures { result ≡ vec_len self.now.mailboxes.now.all }
    {
        self.mailboxes.edges()
    }

    /// Returns the edge with this number, from 1, if there is one.
    pub fn edge(&self, number: usize) -> Option<Control<'x, J>>
        ensures { IfSome result (λ control. control.mailbox.now.number ≡ number) }
    {
        let mailbox = self.mailboxes.of(number)?;
        Some(Control { mailbox })
    }

    /// Returns the numbers of the links of the edge with this number, from 1: the tunnel's, then
    /// those of the ports. The call needs no answer of the edge.
    pub fn links(&self, edge: usize) -> Option<&'x [LinkCounts]>
        ensures { GivesLinks self.now.boards.now.all.items (edge - 1)
            (option_map (λ links. links.now) result) }
    {
        let boards = self.boards;
        boards.links(edge)
    }

    /// Takes a place for a connection, which receives the updates that the edges announce from now
    /// on. Returns `None` if eight connections have one.
    ///
    /// # Errors
    ///
    /// `AllocError` if memory is refused.
    pub fn join<R: Wait>(&self, rt: &R, alloc: Global) -> Result<Option<Joined<'x>>, AllocError> {
        let outbox = Outbox::new(alloc)?;
        Ok(self.mailboxes.outboxes().join(rt, outbox))
    }

    /// Puts an update from another process into the mailbox of each edge, after the waiting ones.
    /// The call waits while an edge is behind. It does nothing if no updates of other processes
    /// come in.
    pub fn take<R: Wait>(&self, rt: &R, update: &Update) {
        if let Some(outside) = self.outside {
            self.mailboxes.take(rt, &outside.bring(*update));
        }
    }

    /// Puts an update into the outbox of each connection, as one that an edge announces.
    pub fn pass_on<R: Wait>(&self, rt: &R, update: &Update) {
        self.mailboxes.outboxes().put(rt, *update);
    }

    /// Reports to the operator that input from another process was refused. Each refusal is
    /// reported once.
    pub fn refuse<R: Wait>(&self, rt: &R, refused: Refused) {
        self.boards.refuse(rt, refused);
    }
}

/// A running edge that takes requests. Each call waits for the edge's answer, and a request that
/// comes meanwhile waits for its turn.
#[derive(Drop)]
pub struct Control<'x, J: Naming> {
    mailbox: &'x SharedMailbox<Told<J>>,
}

impl<'x, J: Naming> Clone for Control<'x, J> {
    fn clone(&self) -> Result<Self, AllocError> {
        Ok(*self)
    }
}

impl<'x, J: Naming> Copy for Control<'x, J> {}

impl<J: Naming> Control<'_, J> {
    /// Returns the edge's number, from 1.
    pub fn number(&self) -> usize
        ensures { result ≡ self.now.mailbox.now.number }
    {
        self.mailbox.number
    }

    /// Enters a step, and returns the book's answer. Returns `None` if the edge has ended.
    pub fn enter<R: Wait>(
        &self,
        rt: &R,
        command: OperatorCommand,
    ) -> Option<Result<Reply, BookRefusal>> {
        let mut answer = self.mailbox.ask(rt, &Request::Enter(command))?;
        answer.take_entered()
    }

    /// Returns the page of the report of the edge's table after this register, or the first page.
    /// Returns `None` if the edge has ended.
    pub fn page<R: Wait>(
        &self,
        rt: &R,
        alloc: Global,
        after: Option<Register>,
    ) -> Option<Result<UpdatePage, AllocError>>
        ensures { IfSome result (λ answer. IfOk answer (λ page. page.after ≡ after)) }
    {
        let reading = Reading::Page(alloc, after);
        let answer = self.mailbox.ask(rt, &Request::Read(reading))?;
        begun_after(answer.page()?, &after)
    }

    /// Returns the state of the port in the spanning tree.
    pub fn port<R: Wait>(&self, rt: &R, port: u8) -> Option<Option<PortView>> {
        self.mailbox
            .ask(rt, &Request::Read(Reading::Port(port)))?
            .port()
    }

    /// Returns the edge's address and the networks that it serves.
    pub fn served<R: Wait>(
        &self,
        rt: &R,
        alloc: Global,
    ) -> Option<Result<EdgeNetworks, AllocError>> {
        self.mailbox
            .ask(rt, &Request::Read(Reading::Served(alloc)))?
            .served()
    }

    /// Returns the answer to a query, with the edge's number before each line.
    pub fn view<R: Wait>(
        &self,
        rt: &R,
        alloc: Global,
        question: EdgeQuestion,
    ) -> Option<Result<Vec<u8>, AllocError>> {
        let reading = Reading::View(alloc, self.mailbox.number as u64, question);
        self.mailbox.ask(rt, &Request::Read(reading))?.view()
    }
}
