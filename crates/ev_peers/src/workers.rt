//! The workers of an edge: each handles the input of one link or channel, one thing at a time.
#![tactic(auto, using(crate::proofs::PassingOn::says_none, crate::proofs::PassingOn::says_twice, ev_links::proofs::Behind::behind_none))]

ghost use Rattle.std.specs.Prelude.{◌≡◌, ◌+◌, ◌^◌, ◌<◌, ◌≤◌, true, length, take, IfSome};
ghost use Rattle.ev_book.specs.Booking.{is_own};
ghost use Rattle.ev_links.specs.Links.{arrival, packet};
ghost use Rattle.ev_peers.specs.declared.workers.Inlet.TheVariants.{Port, Tunnel, Clock};
ghost use Rattle.ev_peers.specs.Working.{ended_of, IsEventOf, fitting, unwrapped, carried, standing, hearing, input_of, Handles, Turns, Changes, Becomes, Hears, Takes, Ends, PortEnds, PeerEnds};
ghost use Rattle.ev_peers.specs.Inner.Working.{TurnsOnce};
ghost use Rattle.vxlan_wire.specs.Vxlan.{instance_of};
ghost use Rattle.ev_peers.specs.Sending.{gone, Sends, OutEnds};

use crate::answering::answer;
use crate::forwarding::CarriedFrame;
use crate::gate::Gate;
use crate::outlet::Outlet;
use crate::packets::PacketsIn;
use crate::shared_edge::Ended;
use crate::worker::Worker;
use ether_wire::{Addr, Vni};
use ev_book::{Naming, Placed, Told};
use ev_edge::Event;
use ev_links::{LONGEST, LinkIn, LinkOut};
use ev_mailboxes::{EdgeMessage, Input, Reception, UpdatesIn};
use ev_tunnel::unwrap_datagram;
use std::sync::Wait;

/// The source of the datagrams that come over a link.
#[derive(Clone, Copy)]
enum Inlet {
    /// Frames of the access port with this number, which belongs to this VNI.
    Port(u8, Vni),
    /// Datagrams of other edges.
    Tunnel,
    /// Seconds.
    Clock,
}

/// The number of octets of the longest frame.
const FRAME: usize = 9018;

/// Returns this frame with its VNI, or no frame if it has more than 9,018 octets.
fn fitting<'a>(vni: Vni, frame: &'a [u8]) -> CarriedFrame<'a>
    ensures fits { length result.frame.now ≤ 9018 }
    ensures fitting { (result.vni, result.frame.now) ≡ fitting (vni, frame.now) }
{
    if frame.len() > FRAME {
        return CarriedFrame::none();
    }
    CarriedFrame { vni, frame }
}

/// Returns the frame that a tunnel's datagram carries. Returns no frame if the octets are no VXLAN
/// datagram, or the frame has more than 9,018 octets.
fn unwrapped<'a>(octets: &'a [u8]) -> CarriedFrame<'a>
    ensures fits { length result.frame.now ≤ 9018 }
    ensures unwrapped { (result.vni, result.frame.now) ≡ unwrapped (instance_of octets.now) }
{
    match unwrap_datagram(octets) {
        Ok((vni, frame)) => fitting(vni, frame),
        Err(_) => CarriedFrame::none(),
    }
}

/// Returns the frame of a datagram that comes over a link. A clock's datagram has none.
fn carried<'a>(source: &Inlet, octets: &'a [u8]) -> CarriedFrame<'a>
    ensures fits { length result.frame.now ≤ 9018 }
    ensures carried { (result.vni, result.frame.now) ≡ carried source.now octets.now }
{
    match source {
        Inlet::Port(_, vni) => fitting(*vni, octets),
        Inlet::Tunnel => unwrapped(octets),
        Inlet::Clock => CarriedFrame::none(),
    }
}

/// Returns the event of a link's datagram. An empty datagram has none, except a clock's.
fn event_of<'a>(source: &Inlet, from: Addr, octets: &'a [u8]) -> Option<Event<'a>>
    ensures event { IsEventOf source.now (arrival from octets.now) result }
    ensures own { IfSome result (λ event. is_own event ≡ true) }
{
    match source {
        Inlet::Clock => Some(Event::Second),
        Inlet::Port(port, _) if !octets.is_empty() => Some(Event::Frame(*port, octets)),
        Inlet::Tunnel if !octets.is_empty() => Some(Event::TunnelFrame(from, octets)),
        _ => None,
    }
}

/// Enters the event of a link's datagram, if it has one, and passes on the answer.
fn enter_datagram<L: Placed, J: Naming, O: Outlet<Told<J>> + Drop, G: Gate, R: Wait>(
    worker: &mut Worker<'_, L, J, O, G, R>,
    source: &Inlet,
    from: Addr,
    octets: &[u8],
)
    ensures handles { Handles worker.old.shared_edge.now.bridge source.now
        (standing worker.old.pass (O.parcels worker.old.outlet) (O.records worker.old.outlet))
        (arrival from octets.now)
        (standing worker.new.pass (O.parcels worker.new.outlet) (O.records worker.new.outlet)) }
    ensures stays { worker.new.shared_edge ≡ worker.old.shared_edge }
{
    let Some(event) = event_of(source, from, octets) else {
        return;
    };
    worker.act(&event, &None, &carried(source, octets));
}

/// Brings an access port up, or takes it down.
fn turn_port<L: Placed, J: Naming, O: Outlet<Told<J>> + Drop, G: Gate, R: Wait>(
    worker: &mut Worker<'_, L, J, O, G, R>,
    port: u8,
    vni: Vni,
    is_up: bool,
)
    ensures turns { Turns worker.old.shared_edge.now.bridge (Port port vni) is_up
        (standing worker.old.pass (O.parcels worker.old.outlet) (O.records worker.old.outlet))
        (standing worker.new.pass (O.parcels worker.new.outlet) (O.records worker.new.outlet)) }
    ensures stays { worker.new.shared_edge ≡ worker.old.shared_edge }
{
    let carried = CarriedFrame { vni, frame: &[] };
    if is_up {
        worker.act(&Event::PortUp(port), &None, &carried);
    } else {
        worker.act(&Event::PortDown(port), &None, &carried);
    }
}

/// Returns the source as an input in a message to the operator.
fn input_of(source: &Inlet) -> Input
    ensures { result ≡ input_of source.now }
{
    match source {
        Inlet::Port(port, _) => Input::Port(*port),
        Inlet::Tunnel => Input::Tunnel,
        Inlet::Clock => Input::Clock,
    }
}

/// Reports to the operator that a link works again or has failed, and brings its access port up or
/// takes it down. A bridge that receives nothing at a port any more would assume to be the only
/// bridge there, and create a loop.
fn change<L: Placed, J: Naming, O: Outlet<Told<J>> + Drop, G: Gate, R: Wait>(
    worker: &mut Worker<'_, L, J, O, G, R>,
    source: &Inlet,
    works: bool,
)
    ensures changes { Changes worker.old.shared_edge.now.bridge source.now works
        (standing worker.old.pass (O.parcels worker.old.outlet) (O.records worker.old.outlet))
        (standing worker.new.pass (O.parcels worker.new.outlet) (O.records worker.new.outlet)) }
    ensures stays { worker.new.shared_edge ≡ worker.old.shared_edge }
{
    worker.outlet.reception(Reception {
        input: input_of(source),
        works,
    });
    if let Inlet::Port(port, vni) = source {
        turn_port(worker, *port, *vni, works);
    }
}

/// Calls `change` if the link started or stopped failing with this call.
fn note_call<L: Placed, J: Naming, O: Outlet<Told<J>> + Drop, G: Gate, R: Wait>(
    worker: &mut Worker<'_, L, J, O, G, R>,
    source: &Inlet,
    works: &mut bool,
    has_brought: bool,
)
    ensures works { works.new ≡ has_brought }
    ensures becomes { Becomes worker.old.shared_edge.now.bridge source.now works.old has_brought
        (standing worker.old.pass (O.parcels worker.old.outlet) (O.records worker.old.outlet))
        (standing worker.new.pass (O.parcels worker.new.outlet) (O.records worker.new.outlet)) }
    ensures stays { worker.new.shared_edge ≡ worker.old.shared_edge }
{
    if *works != has_brought {
        *works = has_brought;
        change(worker, source, has_brought);
    }
}

/// Waits for the next datagram of a link and enters it. Returns `false` exactly at the link's end.
/// After a failed call it returns `true`, so that the link is called again.
fn turn<L: Placed, J: Naming, I: LinkIn, O: Outlet<Told<J>> + Drop, G: Gate, R: Wait>(
    worker: &mut Worker<'_, L, J, O, G, R>,
    buffer: &mut [u8],
    link: &mut I,
    source: &Inlet,
    works: &mut bool,
) -> bool
    requires { I.failed link.old + 1 < 2 ^ 64 }
    ensures turns { TurnsOnce result worker.old.shared_edge.now.bridge source.now (I.came link.old)
        (hearing works.old
        (standing worker.old.pass (O.parcels worker.old.outlet) (O.records worker.old.outlet)))
        (I.came link.new)
        (hearing works.new
        (standing worker.new.pass (O.parcels worker.new.outlet) (O.records worker.new.outlet))) }
    ensures stays { worker.new.shared_edge ≡ worker.old.shared_edge }
{
    match link.recv(buffer) {
        Ok(Some((from, size))) => {
            let (octets, _) = buffer.split_at(size);
            note_call(worker, source, works, true);
            enter_datagram(worker, source, from, octets);
            true
        }
        Ok(None) => false,
        Err(_) => {
            note_call(worker, source, works, false);
            true
        }
    }
}

/// Enters the datagrams of a link until it ends. Returns `false` if the last call before the end
/// failed, else `true`. The buffer has one octet more than the longest datagram: a longer datagram
/// must not be cut to a valid length and taken for whole.
fn hear_all<L: Placed, J: Naming, I: LinkIn, O: Outlet<Told<J>> + Drop, G: Gate, R: Wait>(
    worker: &mut Worker<'_, L, J, O, G, R>,
    link: &mut I,
    source: &Inlet,
) -> bool
    ensures { Hears worker.old.shared_edge.now.bridge source.now (I.failed link.new)
        (I.came link.old)
        (hearing true
        (standing worker.old.pass (O.parcels worker.old.outlet) (O.records worker.old.outlet)))
        (I.came link.new)
        (hearing result
        (standing worker.new.pass (O.parcels worker.new.outlet) (O.records worker.new.outlet))) }
{
    let mut buffer = [0u8; 9027];
    let mut works = true;
    let shared_edge = worker.shared_edge;
    for _ in shared_edge.rt.forever() {
        if link.failures() == u64::MAX {
            return works;
        }
        if !turn(worker, &mut buffer, link, source, &mut works) {
            return works;
        }
    }
    unreachable!()
}

/// Enters the datagrams of a link until it ends. Returns `Device` exactly if a call of the link
/// failed meanwhile.
fn link_worker<L: Placed, J: Naming, I: LinkIn, O: Outlet<Told<J>> + Drop, G: Gate, R: Wait>(
    worker: &mut Worker<'_, L, J, O, G, R>,
    link: &mut I,
    source: &Inlet,
) -> Ended
    ensures ended { result ≡ ended_of (I.failed link.old) (I.failed link.new) }
    ensures works { Ends worker.old.shared_edge.now.bridge source.now (I.failed link.new)
        (I.came link.old)
        (standing worker.old.pass (O.parcels worker.old.outlet) (O.records worker.old.outlet))
        (I.came link.new)
        (standing worker.new.pass (O.parcels worker.new.outlet) (O.records worker.new.outlet)) }
{
    let before = link.failures();
    let _ = hear_all(worker, link, source);
    if before < link.failures() {
        Ended::Device
    } else {
        Ended::End
    }
}

/// Brings an access port up, and enters the frames that come at it. An empty datagram is no frame.
/// If the port's link fails, the port is taken down until the link works again.
///
/// Returns `Device` exactly if a call of the link failed.
pub fn port_worker<L: Placed, J: Naming, I: LinkIn, O: Outlet<Told<J>> + Drop, G: Gate, R: Wait>(
    worker: &mut Worker<'_, L, J, O, G, R>,
    link: &mut I,
    port: u8,
    vni: Vni,
) -> Ended
    ensures ended { result ≡ ended_of (I.failed link.old) (I.failed link.new) }
    ensures works { PortEnds worker.old.shared_edge.now.bridge port vni (I.failed link.new)
        (I.came link.old)
        (standing worker.old.pass (O.parcels worker.old.outlet) (O.records worker.old.outlet))
        (I.came link.new)
        (standing worker.new.pass (O.parcels worker.new.outlet) (O.records worker.new.outlet)) }
{
    turn_port(worker, port, vni, true);
    link_worker(worker, link, &Inlet::Port(port, vni))
}

/// Enters the datagrams that other edges send. An empty datagram is not entered.
///
/// Returns `Device` exactly if a call of the link failed.
pub fn tunnel_worker<L: Placed, J: Naming, I: LinkIn, O: Outlet<Told<J>> + Drop, G: Gate, R: Wait>(
    worker: &mut Worker<'_, L, J, O, G, R>,
    link: &mut I,
) -> Ended
    ensures ended { result ≡ ended_of (I.failed link.old) (I.failed link.new) }
    ensures works { Ends worker.old.shared_edge.now.bridge Tunnel (I.failed link.new)
        (I.came link.old)
        (standing worker.old.pass (O.parcels worker.old.outlet) (O.records worker.old.outlet))
        (I.came link.new)
        (standing worker.new.pass (O.parcels worker.new.outlet) (O.records worker.new.outlet)) }
{
    link_worker(worker, link, &Inlet::Tunnel)
}

/// Enters a second at each tick of a clock.
///
/// Returns `Device` exactly if a call of the clock failed.
pub fn clock_worker<L: Placed, J: Naming, I: LinkIn, O: Outlet<Told<J>> + Drop, G: Gate, R: Wait>(
    worker: &mut Worker<'_, L, J, O, G, R>,
    clock: &mut I,
) -> Ended
    ensures ended { result ≡ ended_of (I.failed clock.old) (I.failed clock.new) }
    ensures works { Ends worker.old.shared_edge.now.bridge Clock (I.failed clock.new)
        (I.came clock.old)
        (standing worker.old.pass (O.parcels worker.old.outlet) (O.records worker.old.outlet))
        (I.came clock.new)
        (standing worker.new.pass (O.parcels worker.new.outlet) (O.records worker.new.outlet)) }
{
    link_worker(worker, clock, &Inlet::Clock)
}

/// Handles a message: enters an update of another edge, requests announcements if another edge has
/// room for them again, or answers the operator.
fn enter_message<L: Placed, J: Naming, O: Outlet<Told<J>> + Drop, G: Gate, R: Wait>(
    worker: &mut Worker<'_, L, J, O, G, R>,
    message: &EdgeMessage<Told<J>>,
)
    ensures takes { Takes worker.old.shared_edge.now.bridge
        (standing worker.old.pass (O.parcels worker.old.outlet) (O.records worker.old.outlet))
        message.now
        (standing worker.new.pass (O.parcels worker.new.outlet) (O.records worker.new.outlet)) }
    ensures stays { worker.new.shared_edge ≡ worker.old.shared_edge }
{
    match message {
        EdgeMessage::Record(told) => {
            let event = Event::Take(*told.update());
            worker.act(&event, &Some(told.again()), &CarriedFrame::none())
        }
        EdgeMessage::Room => worker.announce(),
        EdgeMessage::Ask(request) => answer(worker, request),
    }
}

/// Handles messages until there are no more: enters the updates that other edges send, requests
/// announcements if one of them has room again, and answers the operator's requests.
pub fn peer_worker<
    L: Placed,
    J: Naming,
    I: UpdatesIn<Told<J>>,
    O: Outlet<Told<J>> + Drop,
    G: Gate,
    R: Wait,
>(worker: &mut Worker<'_, L, J, O, G, R>, updates: &mut I) -> Ended
    ensures { PeerEnds result worker.old.shared_edge.now.bridge
        (I.came updates.old)
        (standing worker.old.pass (O.parcels worker.old.outlet) (O.records worker.old.outlet))
        (I.came updates.new)
        (standing worker.new.pass (O.parcels worker.new.outlet) (O.records worker.new.outlet)) }
{
    let shared_edge = worker.shared_edge;
    for _ in shared_edge.rt.forever() {
        let Some(message) = updates.next() else {
            return Ended::End;
        };
        enter_message(worker, &message);
    }
    unreachable!()
}

/// Returns the first `size` octets of a buffer.
fn front(buffer: &[u8], size: usize) -> &[u8]
    requires { size ≤ length buffer.now }
    ensures { result.now ≡ take size buffer.now }
{
    &buffer[..size]
}

/// Sends a datagram. Returns 1 if it was lost in a failed call, else 0.
fn send_one<O: LinkOut>(link: &mut O, to: Addr, octets: &[u8]) -> u64
    requires { O.failed link.old + 1 < 2 ^ 64 }
    ensures sends { Sends (gone (O.sent link.old) (O.failed link.old)) (packet to octets.now)
        (gone (O.sent link.new) (O.failed link.new)) }
    ensures lost { O.failed link.new ≡ O.failed link.old + result }
{
    match link.send(to, octets) {
        Ok(()) => 0,
        Err(_) => 1,
    }
}

/// Sends the datagrams that wait on the line of a link, until nothing more comes. Returns the
/// number of datagrams that were lost in failed calls.
pub fn out_worker<I: PacketsIn, O: LinkOut, R: Wait>(rt: &R, link: &mut O, packets: &mut I) -> u64
    ensures lost { O.failed link.new ≡ O.failed link.old + result }
    ensures sends { OutEnds (I.came packets.old) (gone (O.sent link.old) (O.failed link.old))
        (I.came packets.new) (gone (O.sent link.new) (O.failed link.new)) }
{
    let mut lost = 0;
    let mut buffer = [0u8; LONGEST];
    for _ in rt.forever() {
        if link.failures() == u64::MAX {
            return lost;
        }
        let Some(packet) = packets.next(&mut buffer) else {
            return lost;
        };
        lost += send_one(link, packet.0, front(&buffer, packet.1));
    }
    unreachable!()
}
