//! The clients of a run. Each client has a thread of its own, and one of a few slots while it is
//! served.
ghost use Rattle.std.specs.Prelude.{◌≡◌, ◌^◌};
ghost use Rattle.ether_wire.specs.Ends.{Allows};
ghost use Rattle.ev_run.specs.RunEdges.{ReadsOut};

use crate::client_stream::ClientStream;
use crate::control_socket::ControlSocket;
use crate::first_line::{ClientRequest, wanted_by};
use crate::records::{ServedEdges, exchange};
use crate::run::is_read_out;
use crate::watching::enter_due;
use ether_wire::{Buffered, In, Reader, Writer};
use ev_book::Naming;
use ev_console::{LocalEdges, SystemDrops, converse};
use ev_exchange::{Known, Sessions};
use ev_mailboxes::Running;
use std::alloc::Global;
use std::io::Write;
use std::net::Shutdown;
use std::os::unix::net::UnixStream;
use std::sync::{Mutex, Wait};
use std::thread::{Scope, Threads};
use std::time::{Clock, Duration};
use std::{io, thread};

/// The most clients that are served at once.
const SLOTS: usize = 8;

/// The most consoles that are served at once: two slots are left for clients that exchange records.
const CONSOLES: usize = 6;

/// The timeout in seconds of each read of a client's first line, and of each write to a client.
const PATIENCE: u64 = 10;

/// The timeout in milliseconds of the last write to a client.
const FAREWELL: u64 = 100;

/// The milliseconds to wait before the next try if no client could be accepted, and before the next
/// look at the sessions if no step was due.
const PAUSE: u64 = 100;

/// A slot that a client has taken.
#[derive(Drop)]
struct ClientSlot {
    /// The handle that ends the client's connection.
    end: UnixStream,
    /// The client is a console.
    is_console: bool,
}

/// The slots of the clients that are being served.
#[derive(Drop)]
struct ClientSlots {
    taken: [Option<ClientSlot>; SLOTS],
    is_closed: bool,
}

impl ClientSlots {
    /// Returns slots that are all free.
    fn new() -> Self {
        ClientSlots {
            taken: [None, None, None, None, None, None, None, None],
            is_closed: false,
        }
    }

    /// Gives a client a slot and returns the slot's number. Returns `None` if no slot is free or
    /// the slots are closed.
    fn take(&mut self, end: UnixStream) -> Option<usize> {
        if self.is_closed {
            return None;
        }
        for (place, slot) in self.taken.iter_mut().enumerate() {
            if slot.is_none() {
                *slot = Some(ClientSlot {
                    end,
                    is_console: false,
                });
                return Some(place);
            }
        }
        None
    }

    /// Returns the number of consoles.
    fn consoles(&self) -> usize {
        let mut count = 0usize;
        for slot in self.taken.iter() {
            if let Some(seated) = slot {
                count = count.saturating_add(usize::from(seated.is_console));
            }
        }
        count
    }

    /// Marks a client as a console. Returns `false` if there are six consoles already.
    fn converse(&mut self, place: usize) -> bool {
        if self.consoles() >= CONSOLES {
            return false;
        }
        if let Some(Some(seated)) = self.taken.get_mut(place) {
            seated.is_console = true;
        }
        true
    }

    /// Frees a client's slot.
    fn leave(&mut self, place: usize) {
        if let Some(slot) = self.taken.get_mut(place) {
            *slot = None;
        }
    }

    /// Closes the slots: gives no client a slot any more, and ends the connections of all clients
    /// that have one.
    fn close(&mut self) {
        self.is_closed = true;
        for slot in self.taken.iter() {
            if let Some(seated) = slot {
                let _ = seated.end.shutdown(Shutdown::Both);
            }
        }
    }
}

/// The service for clients while edges run.
#[derive(Drop)]
pub(crate) struct Service {
    /// The socket to which the clients connect.
    pub(crate) socket: ControlSocket,
    /// The originators that the configuration lists.
    pub(crate) listed: Known,
    /// The number of seconds after which a console is ended that sends nothing.
    pub(crate) idle: u64,
    /// The number of seconds without a session after which an edge elsewhere is away, or 0.
    pub(crate) hold: u64,
}

/// The state that the clients share.
#[derive(Drop)]
struct ServerState<'x, J: Naming, R, T> {
    /// The runtime, which waits and starts threads.
    rt: &'x R,
    /// The allocator of the answers.
    alloc: Global,
    /// The edges that the clients query.
    running: Running<'x, J>,
    /// The service for the clients.
    service: &'x Service,
    /// The slots of the clients.
    slots: &'x Mutex<ClientSlots>,
    /// The sessions with edges elsewhere.
    sessions: &'x Mutex<Sessions>,
    /// The edges elsewhere that the configuration doesn't name.
    unlisted: &'x Mutex<Known>,
    /// The system's counters at the sockets of the edges.
    system: &'x T,
}

/// Answers a client's lines until the client ends, sends nothing for too long, or doesn't read the
/// answers in time.
fn console<J: Naming, R: Wait, T: SystemDrops>(
    server: &ServerState<'_, J, R, T>,
    stream: &UnixStream,
) -> io::Result<()> {
    stream.set_read_timeout(Some(Duration::from_secs(server.service.idle)))?;
    let mut reader = Reader::new(ClientStream::new(stream));
    let mut out = Buffered::new(Writer::new(stream));
    let conversed = converse(server.alloc, server.host(), &mut reader, &mut out);
    let _ = out.abandon();
    if conversed.is_err() {
        // A read timed out, or the client doesn't read: then this line has no room either.
        stream.set_write_timeout(Some(Duration::from_millis(FAREWELL)))?;
        say(stream, b"error: no line came in time\n");
    }
    Ok(())
}

/// Serves a client that is a console, or writes `busy` to it if there are six consoles already.
fn console_seated<J: Naming, R: Wait, T: SystemDrops>(
    server: &ServerState<'_, J, R, T>,
    stream: &UnixStream,
    place: usize,
) -> io::Result<()> {
    if server.slots.lock(server.rt).converse(place) {
        console(server, stream)
    } else {
        say(stream, b"busy\n");
        Ok(())
    }
}

/// Writes a short text to a client.
fn say(stream: &UnixStream, words: &[u8]) {
    let mut stream = stream;
    let _ = stream.write_all(words);
}

/// Serves a client in a slot by its first line.
fn attend<J: Naming + Send + Sync, R: Threads + Wait + Clock + Sync, T: SystemDrops + Sync>(
    server: &ServerState<'_, J, R, T>,
    stream: &UnixStream,
    place: usize,
) -> io::Result<()> {
    let patience = Some(Duration::from_secs(PATIENCE));
    stream.set_write_timeout(patience)?;
    stream.set_read_timeout(patience)?;
    match wanted_by(stream) {
        ClientRequest::Console => console_seated(server, stream, place)?,
        ClientRequest::Records => {
            stream.set_read_timeout(None)?;
            exchange(server.served_edges(), stream);
        }
        ClientRequest::Unknown => say(
            stream,
            b"error: the first line is neither 'console' nor 'records'\n",
        ),
        ClientRequest::Nothing => {}
    }
    Ok(())
}

/// Serves a client, ends its connection, and frees its slot.
fn attend_seated<J: Naming + Send + Sync, R: Threads + Wait + Clock + Sync, T: SystemDrops + Sync>(
    server: &ServerState<'_, J, R, T>,
    stream: UnixStream,
    place: usize,
) {
    let _ = attend(server, &stream, place);
    let _ = stream.shutdown(Shutdown::Both);
    server.slots.lock(server.rt).leave(place);
}

/// Gives a client a slot and a thread, or writes `busy` to it if it gets no slot.
fn admit<
    's,
    'x: 's,
    J: Naming + Send + Sync,
    R: Threads + Wait + Clock + Sync,
    T: SystemDrops + Sync,
>(scope: &Scope<'s, &'x ()>, server: &'x ServerState<'x, J, R, T>, stream: UnixStream) {
    let Ok(end) = stream.try_clone() else {
        return;
    };
    let slot = server.slots.lock(server.rt).take(end);
    let Some(place) = slot else {
        say(&stream, b"busy\n");
        return;
    };
    if scope
        .spawn(move || attend_seated(server, stream, place))
        .is_err()
    {
        server.slots.lock(server.rt).leave(place);
    }
}

/// Accepts clients as they connect, until the server is closed.
fn receive<
    's,
    'x: 's,
    J: Naming + Send + Sync,
    R: Threads + Wait + Clock + Sync,
    T: SystemDrops + Sync,
>(scope: &Scope<'s, &'x ()>, server: &'x ServerState<'x, J, R, T>) {
    for _ in server.rt.forever() {
        match server.service.socket.accept() {
            Ok(stream) => admit(scope, server, stream),
            Err(_) if server.is_closed() => return,
            Err(_) => thread::sleep(server.rt, Duration::from_millis(PAUSE)),
        }
    }
}

/// Serves clients until the server is closed and all clients have gone.
fn serve_clients<
    'x,
    J: Naming + Send + Sync,
    R: Threads + Wait + Clock + Sync,
    T: SystemDrops + Sync,
>(server: &'x ServerState<'x, J, R, T>) {
    thread::scope(thread::scope_env(), server.rt, move |scope| {
        receive(scope, server)
    })
}

/// Marks edges elsewhere as away or back at the edges of this process, until the server is closed.
fn watch_sessions<J: Naming, R: Wait + Clock, T: SystemDrops>(server: &ServerState<'_, J, R, T>) {
    for _ in server.rt.forever() {
        if server.is_closed() {
            return;
        }
        if !enter_due(
            server.rt,
            &server.running,
            server.sessions,
            server.service.hold,
        ) {
            thread::sleep(server.rt, Duration::from_millis(PAUSE));
        }
    }
}

/// Reads an input out, and then closes the server. Returns `true` if no read failed and the end
/// came within 2^40 reads. Serves clients and watches sessions meanwhile, if a thread can be
/// started for each of the two.
fn read_beside<
    's,
    'x: 's,
    J: Naming + Send + Sync,
    R: Threads + Wait + Clock + Sync,
    T: SystemDrops + Sync,
    E: In,
>(scope: &Scope<'s, &'x ()>, server: &'x ServerState<'x, J, R, T>, reader: &mut E) -> bool
    requires { Allows (2 ^ 40) (E.end reader.old) }
    ensures { ReadsOut (E.end reader.old) (E.end reader.new) result }
{
    let _ = scope.spawn(move || serve_clients(server));
    let _ = scope.spawn(move || watch_sessions(server));
    let is_read = is_read_out(reader);
    server.close();
    is_read
}

impl<J: Naming, R: Wait, T> ServerState<'_, J, R, T> {
    /// Returns `true` if the server is closed to more clients.
    fn is_closed(&self) -> bool {
        self.slots.lock(self.rt).is_closed
    }

    /// Closes the server: accepts no more clients, and ends the connections of all.
    fn close(&self) {
        self.slots.lock(self.rt).close();
        self.service.socket.end();
    }
}

impl<'x, J: Naming, R, T> ServerState<'x, J, R, T> {
    /// Returns the edges as a console queries them.
    fn host(&self) -> LocalEdges<'x, J, R, T>
        ensures { result.system.now ≡ self.now.system.now }
    {
        LocalEdges {
            rt: self.rt,
            running: self.running,
            unlisted: Some(self.unlisted),
            system: self.system,
        }
    }

    /// Returns the edges as clients exchange records with them.
    fn served_edges(&self) -> ServedEdges<'x, J, R>
        ensures { result.listed.now ≡ self.now.service.now.listed }
    {
        ServedEdges {
            rt: self.rt,
            alloc: self.alloc,
            running: self.running,
            listed: &self.service.listed,
            sessions: self.sessions,
            unlisted: self.unlisted,
        }
    }
}

/// Reads an input out, and serves clients meanwhile. Returns once all clients have gone.
fn read_serving<
    'x,
    J: Naming + Send + Sync,
    R: Threads + Wait + Clock + Sync,
    T: SystemDrops + Sync,
    E: In,
>(server: &'x ServerState<'x, J, R, T>, reader: &mut E) -> bool
    requires { Allows (2 ^ 40) (E.end reader.old) }
    ensures { ReadsOut (E.end reader.old) (E.end reader.new) result }
{
    // The closure returns the reader; its ghost name shows that it is this reader.
    let (is_read, _reader) = thread::scope(
        thread::scope_env(),
        server.rt,
        |scope| -> (bool, &mut E)
            requires { Allows (2 ^ 40) (E.end reader.now) }
            ensures same { result.1.ghost_name ≡ reader.entry.ghost_name }
            ensures read { ReadsOut (E.end reader.entry.now) (E.end result.1.now) result.0 }
        {
            let is_read = read_beside(scope, server, &mut *reader);
            (is_read, reader)
        },
    );
    is_read
}

/// Reads an input out, and serves the clients of a socket meanwhile, if there is one. Returns
/// `true` if no read failed and the end came within 2^40 reads. Returns once all clients have gone.
pub(crate) fn read_out<
    'x,
    J: Naming + Send + Sync,
    R: Threads + Wait + Clock + Sync,
    T: SystemDrops + Sync,
    E: In,
>(
    rt: &'x R,
    alloc: Global,
    running: Running<'x, J>,
    service: Option<&'x Service>,
    system: &'x T,
    reader: &mut E,
) -> bool
    requires { Allows (2 ^ 40) (E.end reader.old) }
    ensures { ReadsOut (E.end reader.old) (E.end reader.new) result }
{
    let Some(service) = service else {
        return is_read_out(reader);
    };
    let slots = Mutex::new(ClientSlots::new());
    let sessions = Mutex::new(Sessions::new());
    let unlisted = Mutex::new(Known::new());
    let server = ServerState {
        rt,
        alloc,
        running,
        service,
        slots: &slots,
        sessions: &sessions,
        unlisted: &unlisted,
        system,
    };
    read_serving(&server, reader)
}
