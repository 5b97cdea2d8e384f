//! The kind of a frame from a port or from a tunnel.
ghost use Rattle.std.specs.Prelude.{◌≡◌, true, false};
ghost use Rattle.std.specs.Option.{MatchOption};
ghost use Rattle.ether_wire.specs.Frame.{frame_of};
ghost use Rattle.ev_edge.specs.Arrival.{holds_bpdu, bpdu_in, reserved_arrival, data_in, arrival_at, inner_arrival};

use crate::refusal::Refusal;
use bpdu_wire::Bpdu;
use ether_wire::{BPDU_LLC, Frame, Kind, Mac, Vni};

/// The kind of a frame.
#[derive(Clone, Copy, Debug, PartialEq, Eq)]
pub enum Arrival {
    /// One that goes nowhere: its port is down, or its destination is reserved.
    Dropped,
    /// A BPDU.
    Message(Bpdu),
    /// A frame of a network, with its destination and its source.
    Data(Vni, Mac, Mac),
}

/// The octets of the BPDU that a frame holds.
fn bpdu_in<'a>(frame: &Frame<'a>) -> Option<&'a [u8]>
    ensures { MatchOption result (holds_bpdu frame.now ≡ false) (λ octets.
        (holds_bpdu frame.now ≡ true) × (octets.now ≡ bpdu_in frame.now)) }
{
    if frame.destination() != Mac::bridge_group() {
        return None;
    }
    match frame.kind() {
        Kind::Length(_) => frame.payload().strip_prefix(&BPDU_LLC),
        Kind::EtherType(_) => None,
    }
}

/// Returns the kind of a frame with a reserved destination.
fn reserved_arrival(frame: &Frame<'_>) -> Result<Arrival, Refusal>
    ensures { result ≡ reserved_arrival frame.now }
{
    let Some(octets) = bpdu_in(frame) else {
        return Ok(Arrival::Dropped);
    };
    match bpdu_wire::read(octets) {
        Ok(bpdu) => Ok(Arrival::Message(bpdu)),
        Err(refusal) => Err(Refusal::Bpdu(refusal)),
    }
}

/// A frame of a network.
fn data_in(vni: Vni, frame: &Frame<'_>) -> Arrival
    ensures { result ≡ data_in vni frame.now }
{
    Arrival::Data(vni, frame.destination(), frame.source())
}

/// What octets are that come at a port of a network, which is up or down.
pub(crate) fn arrival_at(up: bool, vni: Vni, octets: &[u8]) -> Result<Arrival, Refusal>
    ensures { result ≡ arrival_at up vni (frame_of octets.now) }
{
    let frame = match Frame::read(octets) {
        Ok(frame) => frame,
        Err(refusal) => return Err(Refusal::Ether(refusal)),
    };
    if !up {
        return Ok(Arrival::Dropped);
    }
    if frame.destination().is_reserved() {
        return reserved_arrival(&frame);
    }
    Ok(data_in(vni, &frame))
}

/// What octets are that came through a tunnel in a network.
pub(crate) fn inner_arrival(vni: Vni, octets: &[u8]) -> Result<Arrival, Refusal>
    ensures { result ≡ inner_arrival vni (frame_of octets.now) }
{
    let frame = match Frame::read(octets) {
        Ok(frame) => frame,
        Err(refusal) => return Err(Refusal::Ether(refusal)),
    };
    if frame.destination().is_reserved() {
        return Ok(Arrival::Dropped);
    }
    Ok(data_in(vni, &frame))
}
