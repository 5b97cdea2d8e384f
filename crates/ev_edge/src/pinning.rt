//! Pinning stations by hand, and thawing frozen ones.
ghost use Rattle.std.specs.Prelude.{◌≡◌, None};
ghost use Rattle.ev_edge.specs.Steps.{Pins, answered, nothing};
ghost use Rattle.ev_edge.specs.Pinning.{Pinning, pin_case, refused_pin, unpinned_case, after_unpin, after_thawing};

use crate::edge::Edge;
use crate::refusal::{EdgeRefusal, Refusal};
use crate::reply::Reply;
use ev_claims::SPENT;
use ev_mobility::{Alert, Seq};
use mac_arena::Station;

/// The treatment of a station that is to be pinned.
#[derive(Clone, Copy, Debug, PartialEq, Eq)]
pub enum PinCase {
    /// It is pinned on this port already: nothing.
    Keep,
    /// It is pinned on another port: it goes to this one, without an update.
    Shift,
    /// It cannot be pinned, with this alert.
    Deny(Alert),
    /// It is pinned and advertised as static.
    Pin,
}

impl Edge {
    /// Pins a station on a port.
    pub(crate) fn pin(
        &mut self,
        station: &Station,
        port: u8,
        reply: &mut Reply,
    ) -> Result<(), Refusal>
        ensures { Pins (refused_pin self.old station.now port) self.old station.now port
            (answered result reply.new) self.new }
    {
        if let Some(refusal) = self.refused_pin(station, port) {
            return Err(Refusal::Edge(refusal));
        }
        reply.clear();
        reply.alert = self.pin_there(station, port);
        Ok(())
    }

    /// Why a pin is refused.
    fn refused_pin(&self, station: &Station, port: u8) -> Option<EdgeRefusal>
        ensures { result ≡ refused_pin self.now station.now port }
    {
        let Some(vni) = self.routes.vni_of(port) else {
            return Some(EdgeRefusal::NoSuchPort)
        };
        if vni != station.vni {
            return Some(EdgeRefusal::NoSuchVni);
        }
        if station.mac.is_group() {
            return Some(EdgeRefusal::BadMac);
        }
        None
    }

    /// Returns the treatment of a station that is to be pinned on a port.
    fn pin_case(&self, station: &Station, port: u8) -> PinCase
        ensures { result ≡ pin_case self.now station.now port }
    {
        match self.routes.look(station) {
            Some(entry) if entry.pinned => if entry.port == port {
                PinCase::Keep
            } else {
                PinCase::Shift
            },
            Some(_) => self.unpinned_case(station, true),
            None => self.unpinned_case(station, false),
        }
    }

    /// The same for one that isn't pinned.
    fn unpinned_case(&self, station: &Station, known: bool) -> PinCase
        ensures { result ≡ unpinned_case self.now station.now known }
    {
        if self.next_seq(station) == Seq::Static {
            return PinCase::Deny(Alert::StaticElsewhere);
        }
        if self.routes.counter() >= SPENT {
            return PinCase::Deny(Alert::CounterSpent);
        }
        if !known && self.routes.is_full() {
            return PinCase::Deny(Alert::TableFull);
        }
        PinCase::Pin
    }

    /// Pins a station on a port of its VNI, and returns the alert for the operator, if any.
    fn pin_there(&mut self, station: &Station, port: u8) -> Option<Alert>
        requires { refused_pin self.old station.now port ≡ None }
        ensures { Pinning self.old station.now port result self.new }
    {
        self.routes.always_good();
        match self.pin_case(station, port) {
            PinCase::Keep => None,
            PinCase::Shift => {
                self.routes.shift(station, port);
                None
            }
            PinCase::Deny(alert) => Some(alert),
            PinCase::Pin => match self.routes.pin(station, port) {
                Ok(()) => None,
                Err(_) => Some(Alert::NoMemory),
            },
        }
    }

    /// A pinned station goes, and is withdrawn.
    pub(crate) fn unpin(&mut self, station: &Station, reply: &mut Reply)
        ensures reply { reply.new ≡ nothing }
        ensures after { self.new ≡ after_unpin self.old station.now }
    {
        if let Some(entry) = self.routes.look(station) {
            if entry.pinned {
                self.routes.remove(station);
            }
        }
        reply.clear();
    }

    /// Ends a station's window of moves, and thaws it.
    pub(crate) fn thaw(&mut self, station: &Station, reply: &mut Reply)
        ensures reply { reply.new ≡ nothing }
        ensures after { self.new ≡ after_thawing self.old station.now }
    {
        self.moves.thaw(station);
        reply.clear();
    }
}
