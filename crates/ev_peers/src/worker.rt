//! A worker of an edge, and how it handles one event.
#![tactic(auto, using(crate::proofs::PassingOn::says_none, crate::proofs::PassingOn::says_twice, ev_links::proofs::Behind::behind_none))]

ghost use Rattle.std.specs.Prelude.{◌≡◌, ◌≤◌, length};
ghost use Rattle.ev_book.specs.Entering.{answered};
ghost use Rattle.ev_book.specs.Booking.{IsCovered};
ghost use Rattle.ev_links.specs.Coming.{behind};
ghost use Rattle.ev_mailboxes.specs.DropReason.{cause_of};
ghost use Rattle.ev_peers.specs.Passing.{Leaves, Announces, AnnouncesIf, PassesOn, says, given_by, link_of, drops_of, alarms_of, signs_of};

use crate::forwarding::{CarriedFrame, give_out};
use crate::gate::Gate;
use crate::outlet::Outlet;
use crate::shared_edge::SharedEdge;
use ether_wire::{Mac, Vni};
use ev_book::{BookRefusal, Naming, Pass, Placed, Told};
use ev_edge::{Event, Reply};
use ev_mailboxes::{alarm_of, cause_of, is_second};
use std::sync::Wait;

/// The buffers of a worker for one event. Each event overwrites those of the event before.
#[derive(Drop)]
pub(crate) struct Scratch {
    /// The reply of the book.
    pub(crate) reply: Reply,
    /// The datagram that carries the event's frame.
    datagram: [u8; 9026],
}

/// A worker of an edge: its access to the edge's book, its outlet and its buffers.
#[derive(Drop)]
pub struct Worker<'x, L: Placed, J: Naming, O: Drop, G, R> {
    /// The edge.
    pub shared_edge: &'x SharedEdge<'x, L, J, G, R>,
    /// The pass that it calls the edge's book with.
    pub pass: Pass<L>,
    /// The outlet for the book's answers.
    pub outlet: O,
    /// The buffers for one event.
    pub(crate) scratch: Scratch,
}

impl<'x, L: Placed, J: Naming, O: Drop, G, R> Worker<'x, L, J, O, G, R> {
    /// Creates a worker of this edge, with this pass and this outlet.
    pub fn new(shared_edge: &'x SharedEdge<'x, L, J, G, R>, pass: Pass<L>, outlet: O) -> Self
        ensures shared_edge { result.shared_edge.now ≡ shared_edge.now }
        ensures pass { result.pass ≡ pass }
        ensures outlet { result.outlet ≡ outlet }
    {
        let scratch = Scratch {
            reply: Reply::nothing(),
            datagram: [0u8; 9026],
        };
        Worker {
            shared_edge,
            pass,
            outlet,
            scratch,
        }
    }
}

impl<L: Placed, J: Naming, O: Outlet<Told<J>> + Drop, G: Gate, R: Wait> Worker<'_, L, J, O, G, R> {
    /// Requests the edge's announcements until there is none or one is refused, and sends each to
    /// the other edges. If one of these has no room it requests no more: announcements that were
    /// not requested stay pending in the edge, which needs no memory for them.
    pub(crate) fn announce(&mut self)
        ensures announces { Announces self.old.pass (O.records self.old.outlet) self.new.pass
            (O.records self.new.outlet) }
        ensures parcels { O.parcels self.new.outlet ≡ O.parcels self.old.outlet }
        ensures stays { self.new.shared_edge ≡ self.old.shared_edge }
    {
        let shared_edge = self.shared_edge;
        for _ in shared_edge.rt.forever() {
            if !self.outlet.has_room() {
                return;
            }
            let Some(update) = shared_edge.ask(&mut self.pass, &mut self.scratch.reply) else {
                return;
            };
            self.outlet.record(update);
        }
        unreachable!()
    }

    /// Requests the edge's announcements if one is pending.
    pub(crate) fn announce_if(&mut self, is_pending: bool)
        ensures announces { AnnouncesIf is_pending self.old.pass (O.records self.old.outlet)
            self.new.pass (O.records self.new.outlet) }
        ensures parcels { O.parcels self.new.outlet ≡ O.parcels self.old.outlet }
        ensures stays { self.new.shared_edge ≡ self.old.shared_edge }
    {
        if is_pending {
            self.announce();
        }
    }

    /// Enters an event with the frame that it carries, and passes on the answer: frames to the
    /// links, messages for the operator to the board. Returns the book's answer, and `true` exactly
    /// if an announcement is pending after the event.
    pub(crate) fn give(
        &mut self,
        event: &Event<'_>,
        told: &Option<Told<J>>,
        carried: &CarriedFrame<'_>,
    ) -> (Result<(), BookRefusal>, bool)
        requires fits { length carried.now.frame.now ≤ 9018 }
        requires covered { IsCovered event.now told.now }
        ensures leaves { Leaves self.old.pass event.now
            (answered result.0 self.new.scratch.reply) result.1 self.new.pass }
        ensures parcels { O.parcels self.new.outlet ≡ behind (O.parcels self.old.outlet)
            (given_by self.old.shared_edge.now.bridge carried.now.vni carried.now.frame.now
            (answered result.0 self.new.scratch.reply)) }
        ensures records { O.records self.new.outlet ≡ says (O.records self.old.outlet)
            (signs_of carried.now.vni event.now (answered result.0 self.new.scratch.reply)) }
        ensures stays { self.new.shared_edge ≡ self.old.shared_edge }
    {
        let shared_edge = self.shared_edge;
        let (answer, is_pending) = shared_edge.enter(
            &mut self.pass,
            event,
            told,
            &mut self.scratch.reply,
        );
        let outlet = &mut self.outlet;
        give_signs::<Told<J>, O>(outlet, carried.vni, event, &answer, &self.scratch.reply);
        give_answer::<Told<J>, O>(
            outlet,
            &mut self.scratch,
            shared_edge.bridge,
            carried,
            &answer,
        );
        (answer, is_pending)
    }

    /// Enters an event with the frame that it carries, and passes on the answer: frames to the
    /// links, messages for the operator to the board. If an announcement is pending then, sends
    /// the announcements to the other edges. So a frame of a known station enters the book once.
    pub(crate) fn act(
        &mut self,
        event: &Event<'_>,
        told: &Option<Told<J>>,
        carried: &CarriedFrame<'_>,
    )
        requires fits { length carried.now.frame.now ≤ 9018 }
        requires covered { IsCovered event.now told.now }
        ensures passes { PassesOn self.old.shared_edge.now.bridge
            carried.now.vni carried.now.frame.now self.old.pass event.now
            (O.parcels self.old.outlet) (O.records self.old.outlet) self.new.pass
            (O.parcels self.new.outlet) (O.records self.new.outlet) }
        ensures stays { self.new.shared_edge ≡ self.old.shared_edge }
    {
        let (_, is_pending) = self.give(event, told, carried);
        self.announce_if(is_pending);
    }
}

/// Returns the place of the link over which an event's datagram came: the tunnel's has place 0, and
/// that of a port the port's number.
fn link_of(event: &Event<'_>) -> Option<usize>
    ensures { result ≡ link_of event.now }
{
    match event {
        Event::Frame(port, _) => Some(*port as usize),
        Event::TunnelFrame(_, _) => Some(0),
        _ => None,
    }
}

/// Counts an event's datagram, if it is dropped for this refusal.
fn count_drop<U: Drop, O: Outlet<U>>(outlet: &mut O, event: &Event<'_>, refusal: &BookRefusal)
    ensures records { O.records outlet.new
        ≡ says (O.records outlet.old) (drops_of (link_of event.now) (cause_of refusal.now)) }
    ensures parcels { O.parcels outlet.new ≡ O.parcels outlet.old }
{
    let Some(place) = link_of(event) else {
        return;
    };
    if let Some(cause) = cause_of(refusal) {
        outlet.dropped(place, cause);
    }
}

/// Passes the frames of an answer to the links of its edge. Does nothing for a refusal.
fn give_answer<U: Drop, O: Outlet<U>>(
    outlet: &mut O,
    scratch: &mut Scratch,
    bridge: Mac,
    carried: &CarriedFrame<'_>,
    answer: &Result<(), BookRefusal>,
)
    requires { length carried.now.frame.now ≤ 9018 }
    ensures parcels { O.parcels outlet.new ≡ behind (O.parcels outlet.old)
        (given_by bridge carried.now.vni carried.now.frame.now
        (answered answer.now scratch.old.reply)) }
    ensures records { O.records outlet.new ≡ O.records outlet.old }
    ensures reply { scratch.new.reply ≡ scratch.old.reply }
{
    if answer.is_ok() {
        let Scratch { reply, datagram } = scratch;
        give_out::<U, O>(outlet, datagram, bridge, carried, reply);
    }
}

/// Counts an event's datagram if the answer drops it, and reports the event's second and alarm.
fn give_signs<U: Drop, O: Outlet<U>>(
    outlet: &mut O,
    vni: Vni,
    event: &Event<'_>,
    answer: &Result<(), BookRefusal>,
    reply: &Reply,
)
    ensures records { O.records outlet.new ≡ says (O.records outlet.old)
        (signs_of vni event.now (answered answer.now reply.now)) }
    ensures parcels { O.parcels outlet.new ≡ O.parcels outlet.old }
{
    if let Err(refusal) = answer {
        count_drop::<U, O>(outlet, event, refusal);
    }
    give_alarms::<U, O>(outlet, vni, event, answer, reply);
}

/// Reports a second to the operator's board if the event is one, and then the alarm of the answer
/// if there is one.
fn give_alarms<U: Drop, O: Outlet<U>>(
    outlet: &mut O,
    vni: Vni,
    event: &Event<'_>,
    answer: &Result<(), BookRefusal>,
    reply: &Reply,
)
    ensures records { O.records outlet.new ≡ says (O.records outlet.old)
        (alarms_of vni event.now (answered answer.now reply.now)) }
    ensures parcels { O.parcels outlet.new ≡ O.parcels outlet.old }
{
    if is_second(event) {
        outlet.second();
    }
    if let Some(alarm) = alarm_of(vni, event, answer, reply) {
        outlet.alarm(alarm);
    }
}
