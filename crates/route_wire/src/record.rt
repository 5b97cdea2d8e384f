//! A whole record:
//!
//! | Octets | Field |
//! |---|---|
//! | 6 | magic, version, kind and length, as `stream` has them |
//! | 4 | originator |
//! | 4 | incarnation, from the second version on |
//! | 8 | counter |
//! | 3 | VNI |
//! | the rest | the route, as `route` has it, and the octets after it |
ghost use Rattle.std.specs.Prelude.{◌≡◌, ◌+◌, ◌≤◌, ◌⊎◌, None, if◌then◌else◌, length};
ghost use Rattle.route_wire.specs.Stream.{IsWhole};
ghost use Rattle.route_wire.specs.Route.{ip_len, has_label2, ip_in, label2_in, route_type, tail_of};
ghost use Rattle.route_wire.specs.Inner.Route.{HasRoute};
ghost use Rattle.route_wire.specs.Inner.Refusal.{IsReadable};
ghost use Rattle.route_wire.specs.Refusal.{refusal_of};
ghost use Rattle.route_wire.specs.Record.{route_place, first_header_in, later_header_in, header_in, is_flagged, advert_in, names_no_ip, key_in, content_in, update_in, unless_refused, reading};

use crate::refusal::refusal;
use crate::route::{
    FLAGS_PLACE, IP_PLACE, LABEL2_PLACE, MAC_LEN_V4, MAC_PLACE, MAC_ROUTE, SEQUENCE_PLACE,
    has_label2, ip_len,
};
use crate::stream::{FIRST_VERSION, KIND_PLACE, NEWEST, VERSION_PLACE, WITHDRAWS};
use crate::update::{Addr6, Advert, Content, Ip, Key, Register, Update, Value};
use byteorder::{BigEndian, ByteOrder};
use ether_wire::{Addr, Mac, Vni};

/// The place of the originator.
pub(crate) const ORIGINATOR_PLACE: usize = 6;
/// The place of the counter in the first version.
pub(crate) const FIRST_COUNTER_PLACE: usize = 10;
/// The place of the VNI in the first version.
pub(crate) const FIRST_VNI_PLACE: usize = 18;
/// The place of the route in the first version.
pub(crate) const FIRST_ROUTE_PLACE: usize = 21;
/// The place of the incarnation in later versions.
pub(crate) const INCARNATION_PLACE: usize = 10;
/// The place of the counter in later versions.
pub(crate) const COUNTER_PLACE: usize = 14;
/// The place of the VNI in later versions.
pub(crate) const VNI_PLACE: usize = 22;
/// The place of the route in later versions.
pub(crate) const ROUTE_PLACE: usize = 25;

/// The fields before the route of a record. A record of version 1 has no incarnation; its
/// incarnation counts as 0.
#[derive(Clone, Copy, Debug, PartialEq, Eq)]
pub(crate) struct Header {
    /// 1, 2 or 3.
    pub version: u8,
    /// `true` for a withdrawal.
    pub is_withdrawal: bool,
    /// The originator of the update.
    pub originator: Addr,
    /// The incarnation of the originator.
    pub incarnation: u32,
    /// The number of the update in that incarnation.
    pub counter: u64,
    /// The VNI of the update.
    pub vni: Vni,
}

/// Returns the number of octets before the route.
fn route_place(bytes: &[u8]) -> usize
    requires { FIRST_ROUTE_PLACE ≤ length bytes.now }
    ensures { result ≡ route_place bytes.now }
{
    if bytes[VERSION_PLACE] == FIRST_VERSION {
        FIRST_ROUTE_PLACE
    } else {
        ROUTE_PLACE
    }
}

/// Returns the header of a record of the first version.
fn first_header_in(bytes: &[u8]) -> Header
    requires { FIRST_ROUTE_PLACE ≤ length bytes.now }
    ensures { result ≡ first_header_in bytes.now }
{
    Header {
        version: bytes[VERSION_PLACE],
        is_withdrawal: bytes[KIND_PLACE] == WITHDRAWS,
        originator: Addr::new(BigEndian::read_u32(&bytes[ORIGINATOR_PLACE..])),
        incarnation: 0,
        counter: BigEndian::read_u64(&bytes[FIRST_COUNTER_PLACE..]),
        vni: Vni::from_octets(&bytes[FIRST_VNI_PLACE..]),
    }
}

/// Returns the header of a record of a later version.
fn later_header_in(bytes: &[u8]) -> Header
    requires { ROUTE_PLACE ≤ length bytes.now }
    ensures { result ≡ later_header_in bytes.now }
{
    Header {
        version: bytes[VERSION_PLACE],
        is_withdrawal: bytes[KIND_PLACE] == WITHDRAWS,
        originator: Addr::new(BigEndian::read_u32(&bytes[ORIGINATOR_PLACE..])),
        incarnation: BigEndian::read_u32(&bytes[INCARNATION_PLACE..]),
        counter: BigEndian::read_u64(&bytes[COUNTER_PLACE..]),
        vni: Vni::from_octets(&bytes[VNI_PLACE..]),
    }
}

/// Returns the fields before the route.
fn header_in(bytes: &[u8]) -> Header
    requires least { FIRST_ROUTE_PLACE ≤ length bytes.now }
    requires fits { route_place bytes.now ≤ length bytes.now }
    ensures { result ≡ header_in bytes.now }
{
    if bytes[VERSION_PLACE] == FIRST_VERSION {
        first_header_in(bytes)
    } else {
        later_header_in(bytes)
    }
}

/// Returns the IP address of a MAC's route.
fn ip_in(route: &[u8], ip_octets: usize) -> Option<Ip>
    requires octets { ip_octets ≡ ip_len route.now }
    requires fits { LABEL2_PLACE + ip_len route.now ≤ length route.now }
    ensures { result ≡ ip_in route.now }
{
    match ip_octets {
        0 => None,
        4 => Some(Ip::V4(Addr::new(BigEndian::read_u32(&route[IP_PLACE..])))),
        _ => Some(Ip::V6(Addr6::new(BigEndian::read_u128(&route[IP_PLACE..])))),
    }
}

/// Returns the second label of a MAC's route.
fn label2_in(route: &[u8], ip_octets: usize) -> Option<Vni>
    requires octets { ip_octets ≡ ip_len route.now }
    requires fits { LABEL2_PLACE + ip_len route.now
        + (if has_label2 route.now then 3 else 0) ≤ length route.now }
    ensures { result ≡ label2_in route.now }
{
    if has_label2(route, ip_octets) {
        Some(Vni::from_octets(&route[LABEL2_PLACE + ip_octets..]))
    } else {
        None
    }
}

/// Returns `true` if the lowest bit is set: the address can't move.
fn is_flagged(flags: u8) -> bool
    ensures { result ≡ is_flagged flags }
{
    flags % 2 == 1
}

/// Returns the advert of a MAC's route and the octets after it.
fn advert_in(route: &[u8], ip_octets: usize) -> Advert
    requires octets { ip_octets ≡ ip_len route.now }
    requires fits { HasRoute route.now }
    requires mac { route_type route.now ≡ MAC_ROUTE }
    requires tail { (length (tail_of route.now) ≡ 0) ⊎ (length (tail_of route.now) ≡ 8) }
    ensures { result ≡ advert_in route.now }
{
    let after = &route[2 + usize::from(route[1])..];
    let (is_static, sequence) = if after.is_empty() {
        (false, 0)
    } else {
        (
            is_flagged(after[FLAGS_PLACE]),
            BigEndian::read_u32(&after[SEQUENCE_PLACE..]),
        )
    };
    Advert {
        is_static,
        sequence,
        label2: label2_in(route, ip_octets),
    }
}

/// Returns `true` if the record is a withdrawal of an earlier version than the newest.
fn names_no_ip(header: &Header) -> bool
    ensures { result ≡ names_no_ip header.now }
{
    header.is_withdrawal && header.version != NEWEST
}

/// Returns the IP address that the record names.
// A route without one is checked first: its caller knows that.
fn named_ip(header: &Header, route: &[u8], ip_octets: usize) -> Option<Ip>
    requires octets { ip_octets ≡ ip_len route.now }
    requires fits { LABEL2_PLACE + ip_len route.now ≤ length route.now }
    ensures { result ≡ (if names_no_ip header.now then None else ip_in route.now) }
{
    if ip_octets == 0 {
        return None;
    }
    if names_no_ip(header) {
        return None;
    }
    ip_in(route, ip_octets)
}

/// Returns the key of the route.
fn key_in(header: &Header, route: &[u8], ip_octets: usize) -> Key
    requires octets { ip_octets ≡ ip_len route.now }
    requires fits { HasRoute route.now }
    ensures { result ≡ key_in header.now route.now }
{
    if route[0] != MAC_ROUTE {
        return Key::Flood(header.vni);
    }
    let ip = named_ip(header, route, ip_octets);
    Key::Mac(header.vni, Mac::from_octets(&route[MAC_PLACE..]), ip)
}

/// Returns the content of the update.
#[inline(always)]
fn content_in(header: &Header, route: &[u8], ip_octets: usize) -> Content
    requires octets { ip_octets ≡ ip_len route.now }
    requires readable { IsReadable header.now route.now }
    ensures { result ≡ content_in header.now route.now }
{
    if header.is_withdrawal {
        return Content::Withdrawn;
    }
    if route[0] == MAC_ROUTE {
        return Content::Advert(advert_in(route, ip_octets));
    }
    Content::Advert(Advert {
        is_static: false,
        sequence: 0,
        label2: None,
    })
}

/// Writes the update of a record that isn't refused.
#[inline(always)]
fn write_update(header: &Header, route: &[u8], ip_octets: usize, update: &mut Update)
    requires octets { ip_octets ≡ ip_len route.now }
    requires readable { IsReadable header.now route.now }
    ensures { update.new ≡ update_in header.now route.now }
{
    let register = Register {
        originator: header.originator,
        key: key_in(header, route, ip_octets),
    };
    let value = Value {
        incarnation: header.incarnation,
        counter: header.counter,
        content: content_in(header, route, ip_octets),
    };
    *update = Update::new(register, value);
}

/// Writes the update of a record, or returns its refusal, the first that applies.
// Inlined, as `refusal` is: a caller that knows some of the route makes no tests of it.
#[inline(always)]
fn read_route(header: &Header, route: &[u8], ip_octets: usize, update: &mut Update) -> Option<u8>
    requires octets { ip_octets ≡ ip_len route.now }
    ensures { unless_refused result update.new
        ≡ unless_refused (refusal_of header.now route.now) (update_in header.now route.now) }
{
    match refusal(header, route, ip_octets) {
        Some(refusal) => Some(refusal),
        None => {
            write_update(header, route, ip_octets, update);
            None
        }
    }
}

/// Does what `read_into` does, for each route.
#[inline(never)]
#[tactic(auto, using(crate::proofs::Wholes::whole_long), unfolding(crate::specs::Record::reading))]
fn read_other(bytes: &[u8], update: &mut Update) -> Option<u8>
    requires { IsWhole bytes.now }
    ensures { unless_refused result update.new ≡ reading bytes.now }
{
    let header = header_in(bytes);
    let (_, route) = bytes.split_at(route_place(bytes));
    read_route(&header, route, ip_len(route), update)
}

/// Writes the update that a whole record spells to a place of the caller, or returns its refusal,
/// the first that applies.
// In place: a whole update in a result would be copied at each step of its way. Inlined: a call
// would cost a tenth of the reading.
#[inline(always)]
#[tactic(auto, using(crate::proofs::Wholes::whole_long), unfolding(crate::specs::Record::reading))]
pub(crate) fn read_into(bytes: &[u8], update: &mut Update) -> Option<u8>
    requires { IsWhole bytes.now }
    ensures { unless_refused result update.new ≡ reading bytes.now }
{
    if bytes[VERSION_PLACE] != FIRST_VERSION {
        let (_, route) = bytes.split_at(ROUTE_PLACE);
        if route.len() >= 2 && route[0] == MAC_ROUTE && route[1] < MAC_LEN_V4 {
            return read_route(&later_header_in(bytes), route, 0, update);
        }
    }
    read_other(bytes, update)
}

/// Returns the update that a whole record spells, or its refusal, the first that applies:
/// UnknownType (5), BadRoute (6), RdMismatch (7), Multihomed (8), TagUnsupported (9), LabelMismatch
/// (10), BadMac (11) or CounterZero (14).
pub fn read_one(bytes: &[u8]) -> Result<Update, u8>
    requires { IsWhole bytes.now }
    ensures { result ≡ reading bytes.now }
{
    let mut update = Update::placeholder();
    match read_into(bytes, &mut update) {
        Some(refusal) => Err(refusal),
        None => Ok(update),
    }
}
