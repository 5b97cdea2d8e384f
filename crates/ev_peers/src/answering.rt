//! Answers the operator's requests in an edge's worker: it enters a step like any event, or reads
//! from the edge's book.
ghost use Rattle.std.specs.Prelude.{◌≡◌, ◌++◌, true, IfOk};
ghost use Rattle.ev_book.specs.Booking.{is_own};
ghost use Rattle.ev_book.specs.Entering.{answered};
ghost use Rattle.ev_peers.specs.Control.{event_of, Obeys, ShowsPage, ShowsPort, ShowsServed, ShowsView, Shows, Looked, Fulfils, Answers};

use crate::forwarding::CarriedFrame;
use crate::gate::Gate;
use crate::outlet::Outlet;
use crate::shared_edge::SharedEdge;
use crate::worker::Worker;
use ether_wire::Vni;
use ev_book::{BookRefusal, LoggedBook, Naming, Placed, Told};
use ev_edge::{Edge, Event, Reply};
use ev_mailboxes::{EdgeNetworks, OperatorCommand, PortView, Reading, Request, Response};
use ev_view::EdgeQuestion;
use route_join::UpdatePage;
use route_wire::Register;
use rstp_run::Bridge;
use std::alloc::{AllocError, Global};
use std::mem;
use std::sync::Wait;

/// Returns the book's answer, with the reply that the book wrote.
fn replied(answer: Result<(), BookRefusal>, reply: &mut Reply) -> Result<Reply, BookRefusal>
    ensures { result ≡ answered answer reply.old }
{
    match answer {
        Ok(()) => Ok(mem::replace(reply, Reply::nothing())),
        Err(refusal) => Err(refusal),
    }
}

/// Returns the step as an event of an edge.
fn event_of(command: &OperatorCommand) -> Event<'static>
    ensures event { result ≡ event_of command.now }
    ensures own { is_own result ≡ true }
{
    match command {
        OperatorCommand::Pin(station, port) => Event::Pin(*station, *port),
        OperatorCommand::Unpin(station) => Event::Unpin(*station),
        OperatorCommand::Thaw(station) => Event::Thaw(*station),
        OperatorCommand::Away(edge) => Event::Away(*edge),
        OperatorCommand::Back(edge) => Event::Back(*edge),
        OperatorCommand::Mcheck(port) => Event::Mcheck(*port),
        OperatorCommand::PortUp(port) => Event::PortUp(*port),
        OperatorCommand::PortDown(port) => Event::PortDown(*port),
    }
}

/// Enters a step, and sends its frames and records, as for any event.
fn obey<L: Placed, J: Naming, O: Outlet<Told<J>> + Drop, G: Gate, R: Wait>(
    worker: &mut Worker<'_, L, J, O, G, R>,
    command: &OperatorCommand,
) -> Result<Reply, BookRefusal>
    ensures obeys { Obeys worker.old.shared_edge.now.bridge command.now result
        worker.old.pass (O.parcels worker.old.outlet) (O.records worker.old.outlet)
        worker.new.pass (O.parcels worker.new.outlet) (O.records worker.new.outlet) }
    ensures stays { worker.new.shared_edge ≡ worker.old.shared_edge }
{
    let event = event_of(command);
    let (answer, is_pending) = worker.give(&event, &None, &CarriedFrame::none());
    let answer = replied(answer, &mut worker.scratch.reply);
    worker.announce_if(is_pending);
    answer
}

/// Returns the page of the report of an edge's table after this register, or the first page.
fn page_of(alloc: Global, edge: &Edge, after: Option<Register>) -> Result<UpdatePage, AllocError>
    ensures { ShowsPage edge.now after result }
{
    edge.table().page(alloc, after)
}

/// Returns a copy of these networks.
fn copied(alloc: Global, vnis: &[Vni]) -> Result<Vec<Vni>, AllocError>
    ensures { IfOk result (λ copy. copy.items ≡ vnis.now) }
{
    let mut copy = Vec::with_capacity(alloc, vnis.len())?;
    copy.extend_from_slice(vnis)?;
    Ok(copy)
}

/// Returns the address, the ports and the networks of an edge.
fn served_by(alloc: Global, edge: &Edge) -> Result<EdgeNetworks, AllocError>
    ensures { ShowsServed edge.now result }
{
    let routes = edge.routes();
    Ok(EdgeNetworks {
        address: routes.address(),
        ports: copied(alloc, routes.ports())?,
        vnis: copied(alloc, routes.vnis())?,
    })
}

/// Returns the state of a bridge's port, if the bridge has a port with this number.
fn view_of(bridge: &Bridge, port: u8) -> Option<PortView>
    ensures { ShowsPort bridge.now port result }
{
    if port == 0 || usize::from(port) > bridge.len() {
        return None;
    }
    Some(PortView {
        state: *bridge.port(port),
        passes: bridge.passes(port),
    })
}

/// Returns the text of the answer to a question about an edge.
fn view_text(
    alloc: Global,
    number: u64,
    edge: &Edge,
    question: &EdgeQuestion,
) -> Result<Vec<u8>, AllocError>
    ensures { ShowsView number edge.now question.now result }
{
    ev_view::view_of(alloc, number, edge, question)
}

/// Returns the answer to a reading, from this edge.
fn shown(edge: &Edge, reading: &Reading) -> Response
    ensures { Shows edge.now reading.now result }
{
    match reading {
        Reading::Page(alloc, after) => Response::Page(page_of(*alloc, edge, *after)),
        Reading::Port(port) => Response::Port(view_of(edge.bridge(), *port)),
        Reading::Served(alloc) => Response::Served(served_by(*alloc, edge)),
        Reading::View(alloc, number, question) => {
            Response::View(view_text(*alloc, *number, edge, question))
        }
    }
}

/// Returns the answer to a reading, from this book.
fn seen<L: Placed, J: Naming>(book: &LoggedBook<L, J>, reading: &Reading) -> Response
    ensures shows { Shows book.now.edge reading.now result }
    ensures looked { Looked reading.now result }
{
    shown(book.edge(), reading)
}

/// Returns the answer to a reading, from the edge's book, which it locks and does not change.
fn look<L: Placed, J: Naming, G: Gate, R: Wait>(
    shared_edge: &SharedEdge<'_, L, J, G, R>,
    reading: &Reading,
) -> Response
    ensures { Looked reading.now result }
{
    let book = shared_edge.book.lock(shared_edge.rt);
    seen(&*book, reading)
}

/// Fulfils a request, and returns the answer.
fn fulfil<L: Placed, J: Naming, O: Outlet<Told<J>> + Drop, G: Gate, R: Wait>(
    worker: &mut Worker<'_, L, J, O, G, R>,
    request: &Request,
) -> Response
    ensures fulfils { Fulfils worker.old.shared_edge.now.bridge request.now result
        worker.old.pass (O.parcels worker.old.outlet) (O.records worker.old.outlet)
        worker.new.pass (O.parcels worker.new.outlet) (O.records worker.new.outlet) }
    ensures stays { worker.new.shared_edge ≡ worker.old.shared_edge }
{
    match request {
        Request::Enter(command) => Response::Entered(obey(worker, command)),
        Request::Read(reading) => look(worker.shared_edge, reading),
    }
}

/// Fulfils a request, and gives the answer to the operator.
pub(crate) fn answer<L: Placed, J: Naming, O: Outlet<Told<J>> + Drop, G: Gate, R: Wait>(
    worker: &mut Worker<'_, L, J, O, G, R>,
    request: &Request,
)
    ensures answers { Answers worker.old.shared_edge.now.bridge request.now
        worker.old.pass (O.parcels worker.old.outlet) (O.records worker.old.outlet)
        worker.new.pass (O.parcels worker.new.outlet) (O.records worker.new.outlet) }
    ensures stays { worker.new.shared_edge ≡ worker.old.shared_edge }
{
    let answer = fulfil(worker, request);
    worker.outlet.answer(answer);
}
