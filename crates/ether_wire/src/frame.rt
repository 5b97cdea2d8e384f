//! An Ethernet frame, without preamble and check sequence:
//!
//! | Octets | Field |
//! |---|---|
//! | 6 | destination |
//! | 6 | source |
//! | 2 | type or length: at most 1500 is a length, any other value a type |
//! | the rest | the payload; after a payload with a length, padding |
ghost use Rattle.std.specs.Prelude.{◌≡◌, ◌≤◌, length, take};
ghost use Rattle.ether_wire.specs.Frame.{frame_of, IsFrame, destination_of, source_of, type_or_length, has_length, is_too_long, kind_of, payload_of, refusal_number};

use crate::addr::Mac;
use byteorder::{BigEndian, ByteOrder};
use std::marker::Model;

/// The place of the source, after the destination.
pub(crate) const SOURCE_PLACE: usize = 6;
/// The place of the type or length.
pub(crate) const TYPE_PLACE: usize = 12;
/// The place of the payload, and the minimum number of octets of a frame.
pub(crate) const PAYLOAD_PLACE: usize = 14;
/// The maximum number of octets of a frame.
pub(crate) const MOST_OCTETS: usize = 9018;
/// The greatest value that is a length; any above it is a type.
pub(crate) const MOST_LENGTH: u16 = 1500;

/// There are fewer octets than a frame has before its payload: checked first.
pub const TOO_SHORT: u8 = 1;
/// Checked second: there are more octets than the maximum of a frame.
pub const TOO_LONG: u8 = 2;
/// Checked last: the length field is greater than the number of octets after it.
pub const LENGTH_BEYOND: u8 = 3;

/// Why octets are not a frame.
#[derive(Clone, Copy, Debug, PartialEq, Eq)]
pub enum FrameRefusal {
    /// Below 14 octets.
    Short,
    /// Above 9,018 octets.
    Long,
    /// The length field is greater than the number of octets after it.
    BadLength,
}

impl FrameRefusal {
    /// Returns the number of the refusal.
    pub fn number(self) -> u8
        ensures { result ≡ refusal_number self }
    {
        match self {
            FrameRefusal::Short => TOO_SHORT,
            FrameRefusal::Long => TOO_LONG,
            FrameRefusal::BadLength => LENGTH_BEYOND,
        }
    }
}

/// The meaning of the two octets after the addresses.
#[derive(Clone, Copy, Debug, PartialEq, Eq)]
pub enum Kind {
    /// The payload's length in octets, at most 1500 (IEEE 802.3).
    Length(u16),
    /// The payload's protocol.
    EtherType(u16),
}

/// A frame. Its parts are borrowed from its octets.
#[derive(Drop)]
pub struct Frame<'a> {
    octets: &'a [u8],
}

impl<'a> Model for Frame<'a> {
    ghost use Rattle.std.specs.Prelude.{ℕ, List};

    ghost Value = { List ℕ };

    ghost use Rattle.ether_wire.specs.Frame.{IsFrame};

    ghost view = { λ f. f.octets.now };

    ghost invariant = { λ f. IsFrame f.octets.now };
}

/// Returns the two octets after the addresses.
fn type_or_length(octets: &[u8]) -> u16
    requires { 14 ≤ length octets.now }
    ensures { result ≡ type_or_length octets.now }
{
    let (_, rest) = octets.split_at(TYPE_PLACE);
    BigEndian::read_u16(rest)
}

/// Returns `true` if the two octets after the addresses are a length (IEEE 802.3, section 3.2.6).
fn has_length(octets: &[u8]) -> bool
    requires { 14 ≤ length octets.now }
    ensures { result ≡ has_length octets.now }
{
    type_or_length(octets) <= MOST_LENGTH
}

/// Returns `true` if there are more octets than the maximum of a frame.
fn is_too_long(octets: &[u8]) -> bool
    ensures { result ≡ is_too_long octets.now }
{
    octets.len() > MOST_OCTETS
}

/// Returns the first octets after the header, as many as the length field states: the octets after
/// them are padding.
fn counted(rest: &[u8], number: u16) -> &[u8]
    requires { number ≤ length rest.now }
    ensures { result.now ≡ take number rest.now }
{
    let (payload, _) = rest.split_at(usize::from(number));
    payload
}

impl<'a> Frame<'a> {
    /// Returns the frame of these octets.
    #[tactic(auto, unfolding(crate::specs::Frame::frame_of))]
    pub fn read(octets: &'a [u8]) -> Result<Frame<'a>, FrameRefusal>
        ensures { result ≡ frame_of octets.now }
    {
        if octets.len() < PAYLOAD_PLACE {
            return Err(FrameRefusal::Short);
        }
        if is_too_long(octets) {
            return Err(FrameRefusal::Long);
        }
        let number = type_or_length(octets);
        if has_length(octets) && usize::from(number) > octets.len() - PAYLOAD_PLACE {
            return Err(FrameRefusal::BadLength);
        }
        Ok(Frame { octets })
    }

    /// Returns all octets, including padding.
    pub fn octets(&self) -> &'a [u8]
        ensures value { result.now ≡ self.now }
        ensures frame { IsFrame self.now }
    {
        self.octets
    }

    /// Returns the destination address.
    pub fn destination(&self) -> Mac
        ensures { result ≡ destination_of self.now }
    {
        Mac::from_octets(self.octets)
    }

    /// Returns the source address.
    pub fn source(&self) -> Mac
        ensures { result ≡ source_of self.now }
    {
        let (_, rest) = self.octets.split_at(SOURCE_PLACE);
        Mac::from_octets(rest)
    }

    /// Returns the length or the type of the payload.
    pub fn kind(&self) -> Kind
        ensures { result ≡ kind_of self.now }
    {
        let number = type_or_length(self.octets);
        if has_length(self.octets) {
            Kind::Length(number)
        } else {
            Kind::EtherType(number)
        }
    }

    /// Returns the payload: after a length, that number of octets; after a type, all octets.
    pub fn payload(&self) -> &'a [u8]
        ensures { result.now ≡ payload_of self.now }
    {
        let number = type_or_length(self.octets);
        let (_, rest) = self.octets.split_at(PAYLOAD_PLACE);
        if has_length(self.octets) {
            counted(rest, number)
        } else {
            rest
        }
    }
}
