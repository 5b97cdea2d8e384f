//! The operator's requests to a running edge, and the edge's answers.
ghost use Rattle.std.specs.Prelude.{◌≡◌, true, false, IfSome, IfNone, IfOk, MatchResult};
ghost use Rattle.route_join.specs.After.{is_same_place};
ghost use Rattle.ev_mailboxes.specs.Inner.Request.{entered_in, page_in, port_in, served_in, view_in};

use ether_wire::{Addr, Vni};
use ev_book::BookRefusal;
use ev_edge::Reply;
use ev_view::EdgeQuestion;
use mac_arena::Station;
use route_join::UpdatePage;
use route_wire::Register;
use rstp_state::PortState;
use std::alloc::{AllocError, Global};
use std::mem;

/// A step that the operator requests from an edge. Ports are numbered from 1.
#[derive(Clone, Copy, Debug, PartialEq, Eq)]
pub enum OperatorCommand {
    /// Pins the station on the port.
    Pin(Station, u8),
    /// Unpins the station.
    Unpin(Station),
    /// Thaws the station.
    Thaw(Station),
    /// Gives another edge no frame until it is back.
    Away(Addr),
    /// Gives the other edge frames again.
    Back(Addr),
    /// Finds out the port's protocol again.
    Mcheck(u8),
    /// Brings the port up.
    PortUp(u8),
    /// Takes the port down.
    PortDown(u8),
}

/// A query of the operator about an edge's state.
#[derive(Clone, Copy)]
pub enum Reading {
    /// A page of its table's report, in memory of this allocator: the one after this register, or
    /// the first one.
    Page(Global, Option<Register>),
    /// The state of the port with this number in its spanning tree.
    Port(u8),
    /// Its address and the networks that it serves, in memory of this allocator.
    Served(Global),
    /// The answer to the query, with this number before each line, in memory of this allocator.
    View(Global, u64, EdgeQuestion),
}

/// A request of the operator to an edge.
#[derive(Clone, Copy)]
pub enum Request {
    /// Enters a step.
    Enter(OperatorCommand),
    /// Reads its state.
    Read(Reading),
}

/// The state of a port in a spanning tree.
#[derive(Clone, Copy)]
pub struct PortView {
    /// The port's state.
    pub state: PortState,
    /// Whether frames pass there.
    pub passes: bool,
}

/// An edge's address and the networks that it serves.
#[derive(Drop)]
pub struct EdgeNetworks {
    /// Its address, the originator of its updates.
    pub address: Addr,
    /// The VNI of each port, port 1 first.
    pub ports: Vec<Vni>,
    /// The VNIs that it serves, ascending.
    pub vnis: Vec<Vni>,
}

/// An edge's answer to a request.
#[derive(Drop)]
pub enum Response {
    /// The book's answer to the step.
    Entered(Result<Reply, BookRefusal>),
    /// The page of its table's report, or `AllocError` if memory was refused for it.
    Page(Result<UpdatePage, AllocError>),
    /// The state of the port in its spanning tree. `None` if no port has that number.
    Port(Option<PortView>),
    /// Its address and networks, or `AllocError` if memory was refused for them.
    Served(Result<EdgeNetworks, AllocError>),
    /// The answer to a query, or `AllocError` if memory was refused for it.
    View(Result<Vec<u8>, AllocError>),
}

/// Returns an answer unless it is another page than the one after this register. The clauses of a
/// mailbox don't tell which request an answer belongs to, so that this is compared.
pub(crate) fn begun_after(
    answer: Result<UpdatePage, AllocError>,
    after: &Option<Register>,
) -> Option<Result<UpdatePage, AllocError>>
    ensures none { IfNone result (MatchResult answer
        (λ page. is_same_place page.after after.now ≡ false) (λ refused. ⊥)) }
    ensures same { IfSome result (λ it. it ≡ answer) }
    ensures after { IfSome result (λ answer. IfOk answer (λ page. page.after ≡ after.now)) }
{
    if is_after(&answer, after) {
        Some(answer)
    } else {
        None
    }
}

/// Returns `true` unless the answer is another page than the one after this register.
fn is_after(answer: &Result<UpdatePage, AllocError>, after: &Option<Register>) -> bool
    ensures { MatchResult answer.now (λ page. result ≡ is_same_place page.after after.now)
        (λ refused. result ≡ true) }
{
    match answer {
        Ok(page) => page.begins_after(after),
        Err(_) => true,
    }
}

impl Response {
    /// Takes the book's answer to a step, if this is the answer to a step.
    pub(crate) fn take_entered(&mut self) -> Option<Result<Reply, BookRefusal>>
        ensures { result ≡ entered_in self.old }
    {
        match self {
            Response::Entered(Ok(reply)) => Some(Ok(mem::replace(reply, Reply::nothing()))),
            Response::Entered(Err(refusal)) => Some(Err(*refusal)),
            Response::Page(_) | Response::Port(_) | Response::Served(_) | Response::View(_) => None,
        }
    }

    /// Returns the page of the report, if this is the answer to that query.
    pub(crate) fn page(self) -> Option<Result<UpdatePage, AllocError>>
        ensures { result ≡ page_in self }
    {
        match self {
            Response::Page(page) => Some(page),
            Response::Entered(_) | Response::Port(_) | Response::Served(_) | Response::View(_) =>
                None,
        }
    }

    /// Returns the state of the port, if this is the answer to that query.
    pub(crate) fn port(&self) -> Option<Option<PortView>>
        ensures { result ≡ port_in self.now }
    {
        match self {
            Response::Port(view) => Some(*view),
            Response::Entered(_) | Response::Page(_) | Response::Served(_) | Response::View(_) =>
                None,
        }
    }

    /// Returns the edge's address and networks, if this is the answer to that query.
    pub(crate) fn served(self) -> Option<Result<EdgeNetworks, AllocError>>
        ensures { result ≡ served_in self }
    {
        match self {
            Response::Served(served) => Some(served),
            Response::Entered(_) | Response::Page(_) | Response::Port(_) | Response::View(_) =>
                None,
        }
    }

    /// Returns the text of the answer to a query, if this is one.
    pub(crate) fn view(self) -> Option<Result<Vec<u8>, AllocError>>
        ensures { result ≡ view_in self }
    {
        match self {
            Response::View(text) => Some(text),
            Response::Entered(_) | Response::Page(_) | Response::Port(_) | Response::Served(_) =>
                None,
        }
    }
}
