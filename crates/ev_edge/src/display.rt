//! Refusals and replies as text for people, each with its name and number.

use crate::refusal::Refusal;
use crate::reply::Reply;
use ether_wire::{Addr, FrameRefusal, NO_PORTS, has_port};
use ev_tunnel::Decision;
use route_join::Taken;
use std::fmt::{Display, Error, Formatter, Write};

/// Why octets are no frame.
fn frame_words(refusal: FrameRefusal) -> &'static str {
    match refusal {
        FrameRefusal::Short => "frame below 14 octets",
        FrameRefusal::Long => "frame above 9018 octets",
        FrameRefusal::BadLength => "frame shorter than its length field says",
    }
}

/// Why a frame holds no BPDU.
fn bpdu_words(refusal: bpdu_wire::BpduRefusal) -> &'static str {
    match refusal {
        bpdu_wire::BpduRefusal::Short => "BPDU cut short",
        bpdu_wire::BpduRefusal::BadProtocol => "BPDU of another protocol",
        bpdu_wire::BpduRefusal::BadType => "BPDU of an unknown type",
        bpdu_wire::BpduRefusal::BadVersion => "rapid BPDU of a version below 2",
        bpdu_wire::BpduRefusal::Aged => "BPDU as old as it may get",
    }
}

/// Why a datagram has no VXLAN header.
fn vxlan_words(refusal: vxlan_wire::VxlanRefusal) -> &'static str {
    match refusal {
        vxlan_wire::VxlanRefusal::Short => "VXLAN header below 8 octets",
        vxlan_wire::VxlanRefusal::NoInstance => "VXLAN header without a network",
    }
}

impl Display for Refusal {
    fn fmt<W: Write>(&self, f: &mut Formatter<W>) -> Result<(), Error> {
        match self {
            Refusal::Ether(refusal) => f.write_str(frame_words(*refusal)),
            Refusal::Bpdu(refusal) => f.write_str(bpdu_words(*refusal)),
            Refusal::Vxlan(refusal) => f.write_str(vxlan_words(*refusal)),
            Refusal::Edge(refusal) => write!(f, "{refusal}"),
        }
    }
}

/// What stands between two parts of a reply.
fn separate<W: Write>(f: &mut Formatter<W>, is_first: bool) -> Result<(), Error> {
    if is_first {
        return Ok(());
    }
    f.write_str("; ")
}

/// The access ports of a set.
fn write_ports<W: Write>(f: &mut Formatter<W>, ports: u64) -> Result<(), Error> {
    for port in 1..65u8 {
        if has_port(ports, port) {
            write!(f, " port {port}")?;
        }
    }
    Ok(())
}

/// Edges, by their addresses.
fn write_edges<W: Write>(f: &mut Formatter<W>, edges: &[Addr]) -> Result<(), Error> {
    for edge in edges.iter() {
        write!(f, " edge {edge}")?;
    }
    Ok(())
}

/// Writes where a frame goes.
fn write_decision<W: Write>(f: &mut Formatter<W>, decision: &Decision) -> Result<(), Error> {
    if decision.local == NO_PORTS && decision.remote.is_empty() {
        return f.write_str("to nobody");
    }
    f.write_str("to")?;
    write_ports(f, decision.local)?;
    write_edges(f, decision.remote.as_slice())
}

/// Writes the table's answer to an update.
fn taken_words(taken: Taken) -> &'static str {
    match taken {
        Taken::Newer => "taken",
        Taken::Known => "known already",
    }
}

impl Reply {
    /// Writes the first parts: the destination of a frame, and the ports that send BPDUs. Returns
    /// `true` if there were none.
    fn write_sent<W: Write>(&self, f: &mut Formatter<W>) -> Result<bool, Error> {
        let mut is_first = true;
        if let Some(decision) = &self.decision {
            write_decision(f, decision)?;
            is_first = false;
        }
        for (port, _) in self.bpdus.iter() {
            separate(f, is_first)?;
            write!(f, "BPDU to port {port}")?;
            is_first = false;
        }
        Ok(is_first)
    }

    /// The parts about updates. Whether there was nothing yet.
    fn write_updates<W: Write>(&self, f: &mut Formatter<W>, is_first: bool) -> Result<bool, Error> {
        let mut is_first = is_first;
        if let Some(taken) = self.taken {
            separate(f, is_first)?;
            f.write_str(taken_words(taken))?;
            is_first = false;
        }
        if let Some(update) = self.announced {
            separate(f, is_first)?;
            let register = update.register();
            let counter = update.value().counter;
            write!(
                f,
                "to be announced: {} {} {counter}",
                register.key, register.originator
            )?;
            is_first = false;
        }
        Ok(is_first)
    }
}

impl Display for Reply {
    fn fmt<W: Write>(&self, f: &mut Formatter<W>) -> Result<(), Error> {
        let is_first = self.write_sent(f)?;
        let is_first = self.write_updates(f, is_first)?;
        match self.alert {
            Some(alert) => {
                separate(f, is_first)?;
                write!(f, "alert {}: {alert}", alert.number())
            }
            None if is_first => f.write_str("nothing"),
            None => Ok(()),
        }
    }
}
