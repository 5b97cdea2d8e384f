//! The front of a stream of records, by the octets before the body of each record:
//!
//! | Octets | Field |
//! |---|---|
//! | 2 | magic: the characters `EV` |
//! | 1 | version: 1, 2 or 3 |
//! | 1 | kind: 1 advertises, 2 withdraws |
//! | 2 | length: octets that follow, 15 to 512 in version 1, 19 to 512 later |
ghost use Rattle.std.specs.Prelude.{◌≡◌};
ghost use Rattle.route_wire.specs.Stream.{fault_of, whole_up_to, whole_of, FindsWhole};

use crate::reason::{BAD_KIND, BAD_LENGTH, BAD_MAGIC, BAD_VERSION};
use crate::update::Update;
use byteorder::{BigEndian, ByteOrder};

/// The first octet of the magic, the character `E`.
pub(crate) const MAGIC_FIRST: u8 = 0x45;
/// The second octet of the magic, the character `V`.
pub(crate) const MAGIC_SECOND: u8 = 0x56;

/// The place of the version.
pub(crate) const VERSION_PLACE: usize = 2;
/// The place of the kind.
pub(crate) const KIND_PLACE: usize = 3;
/// The place of the length.
pub(crate) const LENGTH_PLACE: usize = 4;
/// The place of its second octet.
pub(crate) const LENGTH_END: usize = 5;
/// The number of octets before those that the length counts.
pub(crate) const HEAD: usize = 6;

/// The first version, without an incarnation.
pub(crate) const FIRST_VERSION: u8 = 1;
/// The second version, in which a withdrawal names no IP address.
pub(crate) const SECOND_VERSION: u8 = 2;
/// The newest version, the one that `write` writes.
pub(crate) const NEWEST: u8 = 3;

/// The kind of a record that advertises.
pub(crate) const ADVERTISES: u8 = 1;
/// The kind of a record that withdraws.
pub(crate) const WITHDRAWS: u8 = 2;

/// The least length in the first version: a record without a route.
pub(crate) const LEAST_FIRST: u16 = 15;
/// The least length in the later versions.
pub(crate) const LEAST_LATER: u16 = 19;
/// The greatest length.
pub(crate) const MOST: u16 = 512;
/// The octets of the longest record.
pub(crate) const LONGEST: usize = 518;

/// The result for the front of a stream.
#[derive(Clone, Copy, Debug, PartialEq, Eq)]
pub enum Whole {
    /// It is a proper beginning of a record.
    Rest,
    /// It shows a fault: BadMagic (1), BadVersion (2), BadKind (3) or BadLength (4).
    Fault(u8),
    /// The first octets, this many, are a whole record.
    Length(usize),
}

/// The next answer of a feed.
#[derive(Clone, Copy, Debug, PartialEq, Eq)]
pub enum Next {
    /// Nothing, until it is fed more.
    More,
    /// The update of a whole record.
    Record(Update),
    /// The refusal of a whole record: 5 to 11 or 14.
    Refused(u8),
    /// The stream's fault, 1 to 4, for good.
    Fault(u8),
}

/// The next answer of a feed that writes each update to a place of its caller.
#[derive(Clone, Copy, Debug, PartialEq, Eq)]
pub enum Answer {
    /// Nothing, until it is fed more.
    More,
    /// A whole record, whose update is written.
    Record,
    /// The refusal of a whole record: 5 to 11 or 14.
    Refused(u8),
    /// The stream's fault, 1 to 4, for good.
    Fault(u8),
}

/// The stream ended within a record, of which there are this many octets.
#[derive(Clone, Copy, Debug, PartialEq, Eq)]
pub struct Truncated {
    /// The number of octets of the record, at least 1.
    pub octets: usize,
}

/// Returns the fault that a stream of records up to a version shows, at the first octet that shows
/// it.
fn fault_of(newest: u8, stream: &[u8]) -> Option<u8>
    ensures { result ≡ fault_of newest stream.now }
{
    let len = stream.len();
    if 0 < len && stream[0] != MAGIC_FIRST || 1 < len && stream[1] != MAGIC_SECOND {
        return Some(BAD_MAGIC);
    }
    if VERSION_PLACE < len && (stream[VERSION_PLACE] == 0 || newest < stream[VERSION_PLACE]) {
        return Some(BAD_VERSION);
    }
    if KIND_PLACE < len && stream[KIND_PLACE] != ADVERTISES && stream[KIND_PLACE] != WITHDRAWS {
        return Some(BAD_KIND);
    }
    if LENGTH_END < len {
        let least = if stream[VERSION_PLACE] == FIRST_VERSION {
            LEAST_FIRST
        } else {
            LEAST_LATER
        };
        let follow = BigEndian::read_u16(&stream[LENGTH_PLACE..]);
        if follow < least || MOST < follow {
            return Some(BAD_LENGTH);
        }
    }
    None
}

/// Returns the result for the front of a stream of records up to a version.
pub(crate) fn whole_up_to(newest: u8, stream: &[u8]) -> Whole
    ensures { result ≡ whole_up_to newest stream.now }
{
    if let Some(fault) = fault_of(newest, stream) {
        return Whole::Fault(fault);
    }
    if stream.len() < HEAD {
        return Whole::Rest;
    }
    let len = HEAD + BigEndian::read_u16(&stream[LENGTH_PLACE..]) as usize;
    if stream.len() < len {
        Whole::Rest
    } else {
        Whole::Length(len)
    }
}

/// Returns whether the stream begins with a whole record, shows a fault, or is a proper beginning
/// of a record. A fault is returned from the first octet that shows it, and one of the length if
/// both octets of the length are there.
pub fn whole_of(stream: &[u8]) -> Whole
    ensures value { result ≡ whole_of stream.now }
    ensures found { FindsWhole stream.now result }
{
    whole_up_to(NEWEST, stream)
}
