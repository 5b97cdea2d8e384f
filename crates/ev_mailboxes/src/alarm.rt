//! The alert of an event, for the operator of an edge.
ghost use Rattle.std.specs.Prelude.{◌≡◌};
ghost use Rattle.ether_wire.specs.Frame.{frame_of};
ghost use Rattle.ev_book.specs.Entering.{answered};
ghost use Rattle.ev_mailboxes.specs.Alarm.{station_by, station_in, station_of, station_for, port_of, refusal_alert, alert_of, alarm_of, is_second};

use ether_wire::{Frame, Vni};
use ev_book::BookRefusal;
use ev_edge::{EdgeRefusal, Event, Refusal, Reply};
use ev_mobility::Alert;
use mac_arena::Station;
use route_wire::Key;

/// An alert, with its station and port.
#[derive(Clone, Copy, Debug, PartialEq, Eq)]
pub struct Alarm {
    /// The alert.
    pub alert: Alert,
    /// The alert's station. `None` if memory was refused to an event without a station, or if the
    /// alert is about the limit of a port.
    pub station: Option<Station>,
    /// The access port of the station: that of the frame or of the pin. `None` if the event has
    /// none.
    pub port: Option<u8>,
}

/// Returns the station that a key names; a flood list has none.
fn station_by(key: &Key) -> Option<Station>
    ensures { result ≡ station_by key.now }
{
    match key {
        Key::Flood(_) => None,
        Key::Mac(vni, mac, _) => Some(Station {
            vni: *vni,
            mac: *mac,
        }),
    }
}

/// Returns the station that sent a frame of this network, if the octets are a frame.
fn station_in(vni: Vni, octets: &[u8]) -> Option<Station>
    ensures { result ≡ station_in vni (frame_of octets.now) }
{
    match Frame::read(octets) {
        Ok(frame) => Some(Station {
            vni,
            mac: frame.source(),
        }),
        Err(_) => None,
    }
}

/// Returns the station of an event; the VNI is that of the frame, if the event brings one.
fn station_of(vni: Vni, event: &Event<'_>) -> Option<Station>
    ensures { result ≡ station_of vni event.now }
{
    match event {
        Event::Frame(_, octets) => station_in(vni, octets),
        Event::Take(update) => station_by(&update.register().key),
        Event::Pin(station, _) | Event::Unpin(station) | Event::Thaw(station) => Some(*station),
        _ => None,
    }
}

/// Returns the access port of an event's station.
fn port_of(event: &Event<'_>) -> Option<u8>
    ensures { result ≡ port_of event.now }
{
    match event {
        Event::Frame(port, _) | Event::Pin(_, port) => Some(*port),
        _ => None,
    }
}

/// Returns the alert of a refusal: refused memory, or the storm limit of a port.
fn refusal_alert(refusal: &BookRefusal) -> Option<Alert>
    ensures { result ≡ refusal_alert refusal.now }
{
    match refusal {
        BookRefusal::NoRoom => Some(Alert::NoMemory),
        BookRefusal::Edge(Refusal::Edge(EdgeRefusal::NoMemory)) => Some(Alert::NoMemory),
        BookRefusal::Edge(Refusal::Edge(EdgeRefusal::PortStorm(port))) => {
            Some(Alert::PortStorm(*port))
        }
        _ => None,
    }
}

/// Returns the alert of an answer: that of the reply, or that of the refusal.
pub fn alert_of(answer: &Result<(), BookRefusal>, reply: &Reply) -> Option<Alert>
    ensures { result ≡ alert_of (answered answer.now reply.now) }
{
    match answer {
        Ok(()) => reply.alert,
        Err(refusal) => refusal_alert(refusal),
    }
}

/// Returns the station of an alert: none if the alert is about the limit of a port.
fn station_for(alert: Alert, vni: Vni, event: &Event<'_>) -> Option<Station>
    ensures { result ≡ station_for alert vni event.now }
{
    match alert.port() {
        Some(_) => None,
        None => station_of(vni, event),
    }
}

/// Returns the alarm of an event and its answer, if there is one. The VNI is that of the frame, if
/// the event brings one.
pub fn alarm_of(
    vni: Vni,
    event: &Event<'_>,
    answer: &Result<(), BookRefusal>,
    reply: &Reply,
) -> Option<Alarm>
    ensures { result ≡ alarm_of vni event.now (answered answer.now reply.now) }
{
    let alert = alert_of(answer, reply)?;
    Some(Alarm {
        alert,
        station: station_for(alert, vni, event),
        port: port_of(event),
    })
}

/// Returns `true` if a second passes with the event.
pub fn is_second(event: &Event<'_>) -> bool
    ensures { result ≡ is_second event.now }
{
    matches!(event, Event::Second)
}
