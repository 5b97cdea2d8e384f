//! Running edges by their numbers. A console that is proved for any of them asks exactly the edge
//! that it names, and returns that edge's answer.
ghost use Rattle.std.specs.Prelude.{◌≡◌, ℕ, option_map, IfOk, MatchOption};
ghost use Rattle.ev_console.specs.Asking.{Asked, entered, page_seen, port_seen, view_seen, served_seen};
ghost use Rattle.ev_console.specs.Inner.LinksShown.{ShowsAny};

use crate::loaded::rows_of;
use crate::operated::Unreached;
use crate::system_drops::SystemDrops;
use ev_book::{BookRefusal, Naming};
use ev_edge::Reply;
use ev_exchange::Known;
use ev_mailboxes::{Control, EdgeNetworks, LinkCounts, OperatorCommand, PortView, Running};
use ev_view::{EdgeQuestion, links_of, with_unlisted};
use route_join::UpdatePage;
use route_wire::Register;
use std::alloc::{AllocError, Global};
use std::sync::{Mutex, Wait};

/// A running edge, as a console queries it.
///
/// # Errors
///
/// Each call returns `Unreached::Ended` if the edge has ended. Only `view` returns the numbers of
/// its links even then.
pub(crate) trait OneEdge {
    /// The edge's number, from 1.
    ghost number: { Self → ℕ };

    /// The edge received this request and gave this answer.
    ghost gave: { Self → Asked → Type 0 };

    /// Enters a step, and returns the answer of the edge's book.
    fn enter(&self, command: &OperatorCommand) -> Result<Result<Reply, BookRefusal>, Unreached>
        ensures { gave self.now (entered (number self.now) command.now result) };

    /// Returns the page of the report of the edge's table after this register, or the first page.
    fn page(
        &self,
        alloc: Global,
        after: Option<Register>,
    ) -> Result<Result<UpdatePage, AllocError>, Unreached>
        ensures gave { gave self.now (page_seen (number self.now) after result) }
        ensures after { IfOk result (λ answer. IfOk answer (λ page. page.after ≡ after)) };

    /// Returns the state of a port in the edge's spanning tree, or `None` if the edge has no port
    /// with this number.
    fn port(&self, port: u8) -> Result<Option<PortView>, Unreached>
        ensures { gave self.now (port_seen (number self.now) port result) };

    /// Returns the text that answers a question to the edge, with its number before each line.
    fn view(
        &self,
        alloc: Global,
        question: &EdgeQuestion,
    ) -> Result<Result<Vec<u8>, AllocError>, Unreached>
        ensures { gave self.now (view_seen (number self.now) question.now result) };

    /// Returns the address, ports and VNIs that the edge serves.
    fn served(&self, alloc: Global) -> Result<Result<EdgeNetworks, AllocError>, Unreached>
        ensures { gave self.now (served_seen (number self.now) result) };
}

/// Running edges, numbered from 1.
pub(crate) trait ManyEdges {
    /// An edge of these.
    type Edge: OneEdge + Drop;

    /// The number of edges.
    ghost count: { Self → ℕ };

    /// No edge was found that has this number.
    ghost lacks: { Self → ℕ → Type 0 };

    /// Returns the number of edges.
    fn edges(&self) -> u64
        ensures { result ≡ count self.now };

    /// Returns the edge with this number, if there is one.
    fn reach(&self, number: u64) -> Option<Self::Edge>
        ensures { MatchOption result (lacks self.now number)
            (λ edge. Self.Edge.number edge ≡ number) };
}

/// The edges of this process, and the runtime on which a caller waits for their answers.
#[derive(Drop)]
pub struct LocalEdges<'x, J: Naming, R, T> {
    /// The runtime.
    pub rt: &'x R,
    /// The edges.
    pub running: Running<'x, J>,
    /// The edges elsewhere that the configuration doesn't name, for a caller that shows them.
    pub unlisted: Option<&'x Mutex<Known>>,
    /// The system's counters at the sockets of the edges.
    pub system: &'x T,
}

/// An edge of this process. Its answers come from a book under a lock, of which no clause knows.
/// The lines of its links show the drops that the system reported.
#[derive(Drop)]
pub(crate) struct HostedEdge<'x, J: Naming, R, T> {
    rt: &'x R,
    control: Control<'x, J>,
    /// The numbers of its links, the tunnel's first.
    links: Option<&'x [LinkCounts]>,
    unlisted: Option<&'x Mutex<Known>>,
    system: &'x T,
}

impl<'x, J: Naming, R: Wait, T: SystemDrops> ManyEdges for LocalEdges<'x, J, R, T> {
    ghost use Rattle.std.specs.Prelude.{⊤, vec_len};

    type Edge = HostedEdge<'x, J, R, T>;

    ghost count = { λ host. vec_len host.running.mailboxes.now.all };

    ghost lacks = { λ host number. ⊤ };

    fn edges(&self) -> u64 {
        self.running.edges() as u64
    }

    fn reach(&self, number: u64) -> Option<HostedEdge<'x, J, R, T>> {
        let control = self.running.edge(number as usize)?;
        let running = self.running;
        Some(HostedEdge {
            rt: self.rt,
            control,
            links: running.links(number as usize),
            unlisted: self.unlisted,
            system: self.system,
        })
    }
}

impl<J: Naming, R: Wait, T: SystemDrops> HostedEdge<'_, J, R, T> {
    /// Returns the lines of the edge's links, with the numbers that its threads show and the drops
    /// that the system reports. Makes no request to the edge, so that an edge that is busy delays
    /// no answer.
    fn links(&self, alloc: Global) -> Result<Vec<u8>, AllocError>
        ensures { IfOk result (λ text.
            ShowsAny (T.reported self.now.system.now self.now.control.mailbox.now.number)
            self.now.control.mailbox.now.number (option_map (λ links. links.now) self.now.links)
            text.items) }
    {
        let Some(links) = self.links else {
            return Ok(Vec::new(alloc));
        };
        let number = self.control.number() as u64;
        let drops = self.system.of_edge(alloc, number)?;
        let rows = rows_of(alloc, links, drops.as_slice())?;
        links_of(alloc, number, rows.as_slice())
    }

    /// Returns the answer of the edge to a question, with the edges that the configuration doesn't
    /// name after it if the question is about other edges.
    fn shown(
        &self,
        alloc: Global,
        question: &EdgeQuestion,
        text: Vec<u8>,
    ) -> Result<Vec<u8>, AllocError> {
        let Some(unlisted) = self.unlisted else {
            return Ok(text);
        };
        let number = self.control.number() as u64;
        let known = unlisted.lock(self.rt);
        with_unlisted(alloc, number, question, text, known.as_slice())
    }
}

impl<J: Naming, R: Wait, T: SystemDrops> OneEdge for HostedEdge<'_, J, R, T> {
    ghost use Rattle.std.specs.Prelude.{option_map};
    ghost use Rattle.ev_console.specs.Inner.LinksShown.{GivesLinks};

    ghost number = { λ edge. edge.control.mailbox.now.number };

    ghost gave = { λ edge asked. GivesLinks (T.reported edge.system.now)
        (option_map (λ links. links.now) edge.links) asked };

    fn enter(&self, command: &OperatorCommand) -> Result<Result<Reply, BookRefusal>, Unreached> {
        match self.control.enter(self.rt, *command) {
            Some(answer) => Ok(answer),
            None => Err(Unreached::Ended),
        }
    }

    fn page(
        &self,
        alloc: Global,
        after: Option<Register>,
    ) -> Result<Result<UpdatePage, AllocError>, Unreached> {
        match self.control.page(self.rt, alloc, after) {
            Some(page) => Ok(page),
            None => Err(Unreached::Ended),
        }
    }

    fn port(&self, port: u8) -> Result<Option<PortView>, Unreached> {
        match self.control.port(self.rt, port) {
            Some(view) => Ok(view),
            None => Err(Unreached::Ended),
        }
    }

    fn view(
        &self,
        alloc: Global,
        question: &EdgeQuestion,
    ) -> Result<Result<Vec<u8>, AllocError>, Unreached> {
        if let EdgeQuestion::Links = question {
            return Ok(self.links(alloc));
        }
        match self.control.view(self.rt, alloc, *question) {
            Some(Ok(text)) => Ok(self.shown(alloc, question, text)),
            Some(Err(refused)) => Ok(Err(refused)),
            None => Err(Unreached::Ended),
        }
    }

    fn served(&self, alloc: Global) -> Result<Result<EdgeNetworks, AllocError>, Unreached> {
        match self.control.served(self.rt, alloc) {
            Some(served) => Ok(served),
            None => Err(Unreached::Ended),
        }
    }
}
