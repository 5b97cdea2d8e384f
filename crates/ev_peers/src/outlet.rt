//! The outlet of an edge's workers: frames go to its links or their lines, records to the other
//! edges, alerts and failures of links to the operator.
#![tactic(auto, using(crate::proofs::PassingOn::says_none, crate::proofs::PassingOn::says_twice, ev_links::proofs::Behind::behind_none))]

ghost use Rattle.std.specs.Prelude.{◌≡◌, ◌∷◌, [], Option, List, slice_get, option_copied, IfSome};
ghost use Rattle.ev_peers.specs.Forwarding.{Parcel, parcel, first_parcel};
ghost use Rattle.ev_peers.specs.Inner.Forwarding.{place_of};
ghost use Rattle.ev_links.specs.Coming.{behind};
ghost use Rattle.ev_mailboxes.specs.Posts.{sent_to};
ghost use Rattle.ev_peers.specs.Passing.{SaidOf, said_of, says, sends, has_room, second_passes, tells, hears, drops, answers};

use crate::shared_line::SharedLine;
use ether_wire::Addr;
use ev_book::{Naming, Told};
use ev_links::PromptOut;
use ev_mailboxes::{Alarm, DropReason, Peers, Posts, Reception, Response};
use ev_mobility::Alert;
use std::alloc::AllocError;
use std::sync::Wait;

/// The link of an edge that gets a frame.
#[derive(Clone, Copy, Debug, PartialEq, Eq)]
pub enum Target {
    /// The access port with this number, from 1.
    Port(u8),
    /// The tunnel, for the edge with this address.
    Edge(Addr),
}

/// Takes the frames and records of an edge's workers. `U` is the type of the records.
pub trait Outlet<U: Drop> {
    /// The frames that it took, each with its link, in their order; `None` if it shows none.
    ghost parcels: { Self → Option (List Parcel) };

    /// The messages to the other edges and to the operator: the records that were sent to each
    /// other edge, in their order; and each answer about room, each second and alert, each failure
    /// or recovery of a link that receives, each dropped datagram, and each answer to a request, in
    /// their order, if it shows these.
    ghost records: { Self → SaidOf U };

    /// Takes a frame for a link. The link sends it at once, or it waits on the link's line. If the
    /// line is full, it drops and counts the frame.
    fn frame(&mut self, to: Target, octets: &[u8])
        ensures given { parcels self.new
            ≡ behind (parcels self.old) (parcel to octets.now ∷ []) }
        ensures records { records self.new ≡ records self.old };

    /// Takes a BPDU's frame for the link of the port with this number, before its frames.
    fn bpdu(&mut self, port: u8, frame: &[u8; 60])
        ensures given { parcels self.new
            ≡ behind (parcels self.old) (first_parcel port frame.now ∷ []) }
        ensures records { records self.new ≡ records self.old };

    /// Returns `true` if each of the other edges has room for one more record.
    fn has_room(&mut self) -> bool
        ensures told { records self.new ≡ says (records self.old) (has_room result ∷ []) }
        ensures parcels { parcels self.new ≡ parcels self.old };

    /// Takes a record for each of the other edges.
    fn record(&mut self, update: U)
        ensures given { records self.new ≡ sends (records self.old) update }
        ensures parcels { parcels self.new ≡ parcels self.old };

    /// Reports to the operator's board that a second passed.
    fn second(&mut self)
        ensures told { records self.new ≡ says (records self.old) (second_passes ∷ []) }
        ensures parcels { parcels self.new ≡ parcels self.old };

    /// Puts an alert on the operator's board, or counts it if the board's rate is exceeded.
    fn alarm(&mut self, alarm: Alarm)
        ensures told { records self.new ≡ says (records self.old) (tells alarm ∷ []) }
        ensures parcels { parcels self.new ≡ parcels self.old };

    /// Reports to the operator that receiving over a link failed, or works again.
    fn reception(&mut self, reception: Reception)
        ensures told { records self.new ≡ says (records self.old) (hears reception ∷ []) }
        ensures parcels { parcels self.new ≡ parcels self.old };

    /// Counts a datagram that the edge dropped: from the link at this place, for this cause.
    fn dropped(&mut self, place: usize, cause: DropReason)
        ensures told { records self.new ≡ says (records self.old) (drops place cause ∷ []) }
        ensures parcels { parcels self.new ≡ parcels self.old };

    /// Gives the operator the answer to a request.
    fn answer(&mut self, answer: Response)
        ensures told { records self.new ≡ says (records self.old) (answers answer ∷ []) }
        ensures parcels { parcels self.new ≡ parcels self.old };
}

/// The lines to an edge's links, the mailboxes of the other edges, and the operator's board. It
/// refers to them, and is copied for each worker.
pub(crate) struct Senders<'x, J: Naming, K, R> {
    /// Waits for a lock.
    pub(crate) rt: &'x R,
    /// To the link of the tunnel, then to those of the access ports, port 1 first.
    pub(crate) lines: &'x [SharedLine<K>],
    /// To the other edges, and to the operator.
    pub(crate) peers: Peers<'x, Told<J>>,
}

impl<'x, J: Naming, K, R> Clone for Senders<'x, J, K, R> {
    fn clone(&self) -> Result<Self, AllocError> {
        Ok(*self)
    }
}

impl<'x, J: Naming, K, R> Copy for Senders<'x, J, K, R> {}

/// Returns the place of a link's line, and the address that goes with a frame for it.
fn place_of(to: Target) -> (usize, Addr)
    ensures { result ≡ place_of to }
{
    match to {
        Target::Edge(address) => (0, address),
        Target::Port(port) => (port as usize, Addr::default()),
    }
}

/// Returns the line at a place, if there is one.
fn line_at<K>(lines: &[SharedLine<K>], place: usize) -> Option<&SharedLine<K>>
    ensures { option_copied result ≡ slice_get lines.now place }
{
    lines.get(place)
}

/// The outlet of one worker: the lines, mailboxes and board of its edge, and posts of its own to
/// the mailboxes of the other edges.
#[derive(Drop)]
pub(crate) struct WorkerOutlet<'x, J: Naming, K, R> {
    senders: Senders<'x, J, K, R>,
    /// The place of the link whose datagrams the worker enters: its part of each line.
    source: usize,
    posts: Posts<Told<J>>,
}

impl<'x, J: Naming, K, R: Wait> WorkerOutlet<'x, J, K, R> {
    /// Returns the outlet of a worker that begins, and that enters the datagrams of the link at a
    /// place. Returns `None` if all workers have their outlets.
    pub(crate) fn new(senders: Senders<'x, J, K, R>, source: usize) -> Option<Self>
        ensures { IfSome result (λ outlet. outlet.source ≡ source) }
    {
        let posts = senders.peers.posts(senders.rt)?;
        Some(WorkerOutlet {
            senders,
            source,
            posts,
        })
    }
}

impl<J: Naming, K: PromptOut, R: Wait> Outlet<Told<J>> for WorkerOutlet<'_, J, K, R> {
    ghost use Rattle.std.specs.Prelude.{None};

    ghost parcels = { λ o. None };

    ghost records = { λ o. said_of o.senders.peers.number (sent_to o.posts) None };

    fn frame(&mut self, to: Target, octets: &[u8]) {
        let (place, address) = place_of(to);
        if let Some(line) = line_at(self.senders.lines, place) {
            let counts = self.senders.peers.link(place);
            line.pass(self.senders.rt, counts, self.source, address, octets);
        }
    }

    fn bpdu(&mut self, port: u8, frame: &[u8; 60]) {
        let (place, _) = place_of(Target::Port(port));
        if let Some(line) = line_at(self.senders.lines, place) {
            line.put_bpdu(self.senders.rt, frame);
        }
    }

    fn has_room(&mut self) -> bool {
        self.senders.peers.have_room()
    }

    fn record(&mut self, update: Told<J>)
        ensures given { said_of self.new.senders.peers.number (sent_to self.new.posts) None
            ≡ sends (said_of self.old.senders.peers.number (sent_to self.old.posts) None) update }
    {
        let senders = self.senders;
        senders.peers.send(senders.rt, &mut self.posts, update);
    }

    fn second(&mut self) {
        self.senders.peers.second(self.senders.rt);
    }

    fn alarm(&mut self, alarm: Alarm) {
        self.senders.peers.alarm(self.senders.rt, alarm);
    }

    fn reception(&mut self, reception: Reception) {
        self.senders.peers.reception(self.senders.rt, reception);
    }

    fn dropped(&mut self, place: usize, cause: DropReason) {
        if let Some(counts) = self.senders.peers.link(place) {
            counts.refuse(cause);
        }
    }

    fn answer(&mut self, answer: Response) {
        self.senders.peers.answer(self.senders.rt, answer);
    }
}

/// Reports to the operator that an edge was refused memory or a thread at its start.
pub(crate) fn report_refused<J: Naming, R: Wait>(rt: &R, peers: Peers<'_, Told<J>>) {
    peers.alarm(
        rt,
        Alarm {
            alert: Alert::NoMemory,
            station: None,
            port: None,
        },
    );
}
