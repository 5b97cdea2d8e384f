//! A client that exchanges records with edges that run. The edges' updates are written to it as the
//! edges announce them, and the edges take its updates. The registers that the edges hold of an
//! edge of the client are written back to it, so that an edge that has restarted withdraws the
//! routes of its earlier life. The operator receives a message if the configuration doesn't list an
//! originator, and if an edge was restarted in an incarnation that isn't higher.
ghost use Rattle.std.specs.Prelude.{◌≡◌, ◌∷◌, ◌++◌, [], OnOk};
ghost use Rattle.ev_exchange.specs.Sending.{own_of};

use crate::client_stream::ClientStream;
use crate::lives::{OwnLives, PeerLives};
use crate::watching::second_now;
use ether_wire::{Addr, Buffered, Flushing, Reader, Writer};
use ev_book::Naming;
use ev_exchange::{
    Announcing, Due, EdgeTable, Entrance, Known, Sender, Sessions, StreamEnd, announce, receive,
};
use ev_mailboxes::{Control, Joined, Refused, Running};
use route_wire::Update;
use std::alloc::{AllocError, Global};
use std::net::Shutdown;
use std::os::unix::net::UnixStream;
use std::sync::{Mutex, Wait};
use std::thread;
use std::thread::{Scope, Threads};
use std::time::Clock;

/// The most times that an edge is asked for a table that has taken an update.
const TRIES: usize = 100;

/// The edges that exchange records with clients.
#[derive(Drop)]
pub(crate) struct ServedEdges<'x, J: Naming, R> {
    pub(crate) rt: &'x R,
    pub(crate) alloc: Global,
    pub(crate) running: Running<'x, J>,
    /// The originators that the configuration lists.
    pub(crate) listed: &'x Known,
    /// The sessions with edges elsewhere.
    pub(crate) sessions: &'x Mutex<Sessions>,
    /// The edges elsewhere that the configuration doesn't name.
    pub(crate) unlisted: &'x Mutex<Known>,
}

impl<'x, J: Naming, R> Clone for ServedEdges<'x, J, R> {
    fn clone(&self) -> Result<Self, AllocError> {
        Ok(*self)
    }
}

impl<'x, J: Naming, R> Copy for ServedEdges<'x, J, R> {}

/// A connection that exchanges records, as its two threads share it.
#[derive(Drop)]
struct Connection<'x, J: Naming, R> {
    edges: ServedEdges<'x, J, R>,
    joined: Joined<'x>,
    /// The addresses of the edges of this process.
    own: Known,
    stream: &'x UnixStream,
}

/// Edges that run, as the source of the updates that a connection sends. The history of sent
/// updates is `None`, since no clause describes state under a lock.
#[derive(Drop)]
struct Announced<'x, J: Naming, R> {
    connection: &'x Connection<'x, J, R>,
    /// The listed originator that the other side named last, if that was the last item.
    named: Option<Addr>,
}

/// Adds an update, if it is of this originator.
fn add_one(own: &mut Vec<Update>, originator: Addr, update: &Update) -> Result<(), AllocError>
    ensures { OnOk result
        (own.new.items ≡ own.old.items ++ own_of originator (update.now ∷ [])) }
{
    if update.register().originator == originator {
        own.push(*update)?;
    }
    Ok(())
}

/// Adds those of the updates that are of this originator.
fn add_own(own: &mut Vec<Update>, originator: Addr, updates: &[Update]) -> Result<(), AllocError>
    ensures { OnOk result (own.new.items ≡ own.old.items ++ own_of originator updates.now) }
{
    for update in updates {
        add_one(own, originator, update)?;
    }
    Ok(())
}

/// Returns the updates of this originator in an edge's table, which is read page by page. Returns
/// `None` if the edge has ended or memory is refused.
fn own_in<J: Naming, R: Wait>(
    rt: &R,
    alloc: Global,
    control: &Control<'_, J>,
    originator: Addr,
) -> Option<Vec<Update>> {
    let mut own = Vec::new(alloc);
    let mut after = None;
    for _ in rt.forever() {
        let page = control.page(rt, alloc, after)?.ok()?;
        add_own(&mut own, originator, page.updates()).ok()?;
        if page.is_last() {
            return Some(own);
        }
        after = page.end();
    }
    unreachable!()
}

impl<J: Naming, R: Wait> Announced<'_, J, R> {
    /// Returns the registers of the named originator in an edge's table, or the edge's own if none
    /// is named. An edge answers before it takes the waiting updates: asks again, up to 100 times,
    /// while the table lacks the update that named an originator.
    fn updates(
        &self,
        alloc: Global,
        control: &Control<'_, J>,
        address: Addr,
    ) -> Option<Vec<Update>> {
        let edges = self.connection.edges;
        let rt = edges.rt;
        let Some(originator) = self.named else {
            return own_in(rt, alloc, control, address);
        };
        for _ in 0..TRIES {
            let updates = own_in(rt, alloc, control, originator)?;
            if !updates.as_slice().is_empty() {
                return Some(updates);
            }
        }
        own_in(rt, alloc, control, originator)
    }

    /// Waits for the next update of the connection's outbox. Returns the item that it makes due.
    fn due(&mut self) -> Option<Due> {
        let edges = self.connection.edges;
        let update = self.connection.joined.next(edges.rt)?;
        let originator = update.register().originator;
        self.named = None;
        if self.connection.own.has(originator) {
            return Some(Due::Update(update));
        }
        // The reader has put it there: it is the first one of an edge elsewhere.
        if edges.listed.has(originator) {
            self.named = Some(originator);
        }
        Some(Due::Back(originator))
    }
}

impl<J: Naming, R: Wait> Announcing for Announced<'_, J, R> {
    ghost use Rattle.std.specs.Prelude.{None};

    ghost told = { λ a. None };

    fn table(&mut self, alloc: Global, edge: u64) -> Option<EdgeTable> {
        let edges = self.connection.edges;
        let control = edges.running.edge(edge as usize)?;
        let served = control.served(edges.rt, alloc)?.ok()?;
        let updates = self.updates(alloc, &control, served.address)?;
        Some(EdgeTable {
            address: served.address,
            updates,
        })
    }

    fn ready(&mut self) -> Option<Due> {
        let edges = self.connection.edges;
        if self.connection.joined.is_idle(edges.rt) {
            return None;
        }
        self.due()
    }

    fn wait<W: Flushing>(&mut self, _sender: &Sender<W>) -> Option<Due> {
        self.due()
    }
}

/// Edges that run, as the receiver of the updates that come over a connection. The history of
/// received updates is `None`, for the same reason.
#[derive(Drop)]
struct Entered<'x, J: Naming, R> {
    connection: &'x Connection<'x, J, R>,
    /// The listed edges elsewhere of which an update has come.
    named: Known,
    /// The other edges elsewhere of which an update has come.
    unlisted: Known,
    /// The lives of these edges.
    peers: PeerLives,
    /// The life of an edge of this process whose updates come back.
    own: OwnLives,
}

impl<J: Naming, R: Wait> Entered<'_, J, R> {
    /// Handles an update of a listed edge elsewhere. With the first one its session begins, and the
    /// registers that the edges hold of that edge are due on the connection.
    fn meet(&mut self, originator: Addr, update: &Update) {
        if self.named.meet(originator) {
            let edges = &self.connection.edges;
            edges.sessions.lock(edges.rt).begin(originator);
            self.connection.joined.put(edges.rt, *update);
        }
    }

    /// Handles an update of another edge elsewhere. With the first one the edge is shown to the
    /// operator.
    fn meet_unlisted(&mut self, originator: Addr, update: &Update) {
        if self.unlisted.meet(originator) {
            let edges = &self.connection.edges;
            let _is_new = edges.unlisted.lock(edges.rt).meet(originator);
            edges
                .running
                .refuse(edges.rt, Refused::Unlisted(originator));
            self.connection.joined.put(edges.rt, *update);
        }
    }

    /// Compares the lives of edges with an update of an edge of this process that comes back. It
    /// shows that the other side has sent all own registers.
    fn compare(&mut self, update: &Update) {
        let connection = self.connection;
        let edges = &connection.edges;
        self.peers.compare(edges);
        self.own.compare(edges, update);
    }

    /// Handles an update of an edge of this process that comes back. If it is a withdrawal of an
    /// earlier life that is new here, it goes to each connection once the edges have it: another
    /// process may hold the advert before it, which is no news here any more.
    fn take_back(&mut self, update: &Update) {
        self.compare(update);
        let edges = &self.connection.edges;
        edges.running.take(edges.rt, update);
        if self.own.is_left_over(update) {
            edges.running.pass_on(edges.rt, update);
        }
    }
}

impl<J: Naming, R: Wait> Entrance for Entered<'_, J, R> {
    ghost use Rattle.std.specs.Prelude.{None};

    ghost given = { λ e. None };

    fn enter(&mut self, update: &Update) {
        let connection = self.connection;
        let originator = update.register().originator;
        if connection.own.has(originator) {
            self.take_back(update);
            return;
        }
        connection.edges.running.take(connection.edges.rt, update);
        self.peers.add(connection.edges.alloc, update);
        self.own.forget();
        if connection.edges.listed.has(originator) {
            self.meet(originator, update);
        } else {
            self.meet_unlisted(originator, update);
        }
    }

    fn tell(&mut self, refusal: u8) {
        let edges = &self.connection.edges;
        edges.running.refuse(edges.rt, Refused::Record(refusal));
    }
}

/// Sends the edges' updates on a connection until it is cut off, and then ends the connection.
fn say<J: Naming, R: Wait>(connection: &Connection<'_, J, R>) {
    let mut from = Announced {
        connection,
        named: None,
    };
    let mut sender = Sender::new(Buffered::new(Writer::new(connection.stream)));
    let edges = &connection.edges;
    announce(
        edges.rt,
        edges.alloc,
        edges.running.edges() as u64,
        &mut from,
        &mut sender,
    );
    let _ = sender.finish().abandon();
    let _ = connection.stream.shutdown(Shutdown::Both);
}

/// Ends the sessions of the edges elsewhere whose updates have come over a connection. They end
/// once the present second is over, so that no edge is away too early.
fn end_sessions<J: Naming, R: Wait + Clock>(edges: &ServedEdges<'_, J, R>, named: &Known) {
    let end = second_now(edges.rt).saturating_add(1);
    let mut sessions = edges.sessions.lock(edges.rt);
    for edge in named.as_slice() {
        sessions.end(*edge, end);
    }
}

/// Receives updates for the edges over a connection, up to its end or its first fault.
fn hear<J: Naming, R: Wait + Clock>(connection: &Connection<'_, J, R>) {
    let mut into = Entered {
        connection,
        named: Known::new(),
        unlisted: Known::new(),
        peers: PeerLives::new(connection.edges.alloc),
        own: OwnLives::new(),
    };
    let incoming = receive(
        &mut into,
        &mut Reader::new(ClientStream::new(connection.stream)),
    );
    let edges = &connection.edges;
    if let StreamEnd::Faulty(fault) = incoming.end {
        edges.running.refuse(edges.rt, Refused::Record(fault));
    }
    end_sessions(edges, &into.named);
}

/// Receives from a connection while a thread sends the edges' updates on it, and then ends the
/// connection.
fn hear_beside<'s, 'x: 's, J: Naming + Send + Sync, R: Threads + Wait + Clock + Sync>(
    scope: &Scope<'s, &'x ()>,
    connection: &'x Connection<'x, J, R>,
) {
    if scope.spawn(move || say(connection)).is_ok() {
        hear(connection);
    }
    connection.joined.cut_off(connection.edges.rt);
    let _ = connection.stream.shutdown(Shutdown::Both);
}

/// Returns the addresses of the edges of this process, or `None` if an edge has ended or memory is
/// refused.
fn own_edges<J: Naming, R: Wait>(rt: &R, alloc: Global, running: Running<'_, J>) -> Option<Known> {
    let mut own = Known::new();
    for place in 0..running.edges() {
        let served = running.edge(place + 1)?.served(rt, alloc)?.ok()?;
        let _ = own.meet(served.address);
    }
    Some(own)
}

/// Exchanges records over a connection until either peer ends it, a fault is received, or the peer
/// is too slow to read the updates. Doesn't begin if memory or a thread is refused, if an edge has
/// ended, or if eight connections exchange records already.
pub(crate) fn exchange<J: Naming + Send + Sync, R: Threads + Wait + Clock + Sync>(
    edges: ServedEdges<'_, J, R>,
    stream: &UnixStream,
) {
    let (rt, alloc, running) = (edges.rt, edges.alloc, edges.running);
    let Some(own) = own_edges(rt, alloc, running) else {
        return;
    };
    let Ok(Some(joined)) = running.join(rt, alloc) else {
        return;
    };
    let connection = Connection {
        edges,
        joined,
        own,
        stream,
    };
    thread::scope(thread::scope_env(), rt, |scope| {
        hear_beside(scope, &connection)
    });
    joined.leave(rt);
}
