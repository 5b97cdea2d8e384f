//! Why an event is refused. A refusal changes nothing.
ghost use Rattle.std.specs.Prelude.{◌≡◌};
ghost use Rattle.ev_edge.specs.Refusal.{own_number, refusal_number};

use ether_wire::FrameRefusal;
use std::fmt::{Display, Error, Formatter, Write};

/// Why an edge refuses an event of its own accord.
#[derive(Clone, Copy, Debug, PartialEq, Eq)]
pub enum EdgeRefusal {
    /// A group address can't be pinned.
    BadMac,
    /// Its originator is not listed, or a tunnel's datagram has the edge's own address, or the edge
    /// that goes away or is back is not listed.
    UnknownOriginator,
    /// It has the edge's own name, no earlier incarnation, and is newer than the edge's own update.
    OwnNameAhead,
    /// There is no memory for it.
    NoMemory,
    /// There is no port of this number.
    NoSuchPort,
    /// The edge doesn't serve the network, or the port doesn't belong to it.
    NoSuchVni,
    /// It is an own advert of an earlier incarnation that would have to be withdrawn, and the edge
    /// has few numbers left.
    OwnSpent,
    /// It is a group or unknown frame of this port, and the edge took on as many in this second as
    /// the port's storm limit allows.
    PortStorm(u8),
}

impl EdgeRefusal {
    /// The refusal's number, as logs give it.
    pub fn number(self) -> u8
        ensures { result ≡ own_number self }
    {
        match self {
            EdgeRefusal::BadMac => 11,
            EdgeRefusal::UnknownOriginator => 12,
            EdgeRefusal::OwnNameAhead => 13,
            EdgeRefusal::NoMemory => 15,
            EdgeRefusal::NoSuchPort => 16,
            EdgeRefusal::NoSuchVni => 17,
            EdgeRefusal::OwnSpent => 21,
            EdgeRefusal::PortStorm(_) => 24,
        }
    }
}

impl Display for EdgeRefusal {
    fn fmt<W: Write>(&self, f: &mut Formatter<W>) -> Result<(), Error> {
        let text = match self {
            EdgeRefusal::BadMac => "a group address can't be pinned",
            EdgeRefusal::UnknownOriginator => "unknown originator",
            EdgeRefusal::OwnNameAhead => "another speaks under this edge's name",
            EdgeRefusal::NoMemory => "no memory",
            EdgeRefusal::NoSuchPort => "no such port",
            EdgeRefusal::NoSuchVni => "no such network here",
            EdgeRefusal::OwnSpent => "counter is spent",
            EdgeRefusal::PortStorm(_) => "too many group or unknown frames of the port",
        };
        f.write_str(text)
    }
}

/// Why an event is refused, and by which part.
#[derive(Clone, Copy, Debug, PartialEq, Eq)]
pub enum Refusal {
    /// The octets are no frame.
    Ether(FrameRefusal),
    /// The frame holds no BPDU, though it is addressed as one.
    Bpdu(bpdu_wire::BpduRefusal),
    /// The datagram has no VXLAN header.
    Vxlan(vxlan_wire::VxlanRefusal),
    /// The edge refuses it.
    Edge(EdgeRefusal),
}

impl Refusal {
    /// The refusal's number among those of its part.
    pub fn number(self) -> u8
        ensures { result ≡ refusal_number self }
    {
        match self {
            Refusal::Ether(refusal) => refusal.number(),
            Refusal::Bpdu(refusal) => refusal.number(),
            Refusal::Vxlan(refusal) => refusal.number(),
            Refusal::Edge(refusal) => refusal.number(),
        }
    }
}
