//! The refusals of a whole record.
ghost use Rattle.std.specs.Prelude.{◌≡◌, ◌≤◌, ◌⊎◌, ◌+◌, length, take, drop, true, false, not, ◌==◌, IfNone};
ghost use Rattle.std.specs.Bool.{OnFalse};
ghost use Rattle.std.specs.List.{list_any};
ghost use Rattle.route_wire.specs.Route.{tail_of, ip_len};
ghost use Rattle.route_wire.specs.Inner.Route.{HasRoute};
ghost use Rattle.route_wire.specs.Refusal.{is_mac_advert, is_unknown_type, is_bad_route, is_followed_well, is_community, has_other_distinguisher, is_multihomed, is_tagged, has_other_label, has_bad_mac, refusal_of};
ghost use Rattle.route_wire.specs.Inner.Refusal.{IsReadable};

use crate::reason::{
    BAD_MAC, BAD_ROUTE, COUNTER_ZERO, LABEL_MISMATCH, MULTIHOMED, RD_MISMATCH, TAG_UNSUPPORTED,
    UNKNOWN_TYPE,
};
use crate::record::Header;
use crate::route::{
    BITS_OF_MAC, BITS_OF_ROUTER, COMMUNITY_LEN, COMMUNITY_TYPE, FLOOD_ROUTE, FLOOD_TAG_PLACE,
    IP_BITS_PLACE, IP_PLACE, MAC_BITS_PLACE, MAC_PLACE, MAC_ROUTE, MAC_TAG_PLACE, RD_ADDR_PLACE,
    RD_TYPE_PLACE, ROUTER_BITS_PLACE, ROUTER_PLACE, SEGMENT_LEN, SEGMENT_PLACE, is_listed_len,
};
use byteorder::{BigEndian, ByteOrder};
use ether_wire::{Mac, Vni};

/// Returns `true` if there is a route type, and it is neither a MAC's nor a flood list's.
fn is_unknown_type(route: &[u8]) -> bool
    ensures { result ≡ is_unknown_type route.now }
{
    !route.is_empty() && route[0] != MAC_ROUTE && route[0] != FLOOD_ROUTE
}

/// Returns `true` if the octets are a MAC Mobility community.
fn is_community(after: &[u8]) -> bool
    ensures { result ≡ is_community after.now }
{
    after.len() == COMMUNITY_LEN && after[0] == COMMUNITY_TYPE && after[1] == 0
}

/// Returns `true` if nothing follows the route, or one community follows an advertised MAC.
fn is_followed_well(header: &Header, route: &[u8]) -> bool
    requires short { 2 ≤ length route.now }
    ensures { result ≡ is_followed_well header.now route.now }
{
    let end = 2 + usize::from(route[1]);
    let after = if end <= route.len() {
        &route[end..]
    } else {
        &[]
    };
    after.is_empty() || route[0] == MAC_ROUTE && !header.is_withdrawal && is_community(after)
}

/// Returns `true` if the route's lengths don't fit each other or the record, or something else
/// follows it.
fn is_bad_route(header: &Header, route: &[u8], ip_octets: usize) -> bool
    requires known { is_unknown_type route.now ≡ false }
    requires octets { ip_octets ≡ ip_len route.now }
    ensures value { result ≡ is_bad_route header.now route.now }
    ensures fits { OnFalse result (HasRoute route.now) }
    ensures tail { OnFalse result (is_mac_advert header.now route.now ≡ true
        → (length (tail_of route.now) ≡ 0) ⊎ (length (tail_of route.now) ≡ 8)) }
{
    if route.len() < 2
        || !is_listed_len(route, ip_octets)
        || route.len() < 2 + usize::from(route[1])
    {
        return true;
    }
    let is_right = if route[0] == MAC_ROUTE {
        usize::from(route[IP_BITS_PLACE]) == 8 * ip_octets
    } else {
        route[ROUTER_BITS_PLACE] == BITS_OF_ROUTER
    };
    !is_right || !is_followed_well(header, route)
}

/// Returns `true` if the distinguisher isn't of type 1 with the originator's address, or the router
/// of a flood list isn't the originator.
fn has_other_distinguisher(header: &Header, route: &[u8]) -> bool
    requires { HasRoute route.now }
    ensures { result ≡ has_other_distinguisher header.now route.now }
{
    route[2] != 0
        || route[RD_TYPE_PLACE] != 1
        || BigEndian::read_u32(&route[RD_ADDR_PLACE..]) != header.originator.number()
        || route[0] != MAC_ROUTE
            && BigEndian::read_u32(&route[ROUTER_PLACE..]) != header.originator.number()
}

/// Returns `true` if some octet of the Ethernet segment identifier isn't 0.
#[tactic(auto, using(crate::proofs::Segments::any_of_ten))]
fn has_segment(route: &[u8]) -> bool
    requires { SEGMENT_PLACE + SEGMENT_LEN ≤ length route.now }
    ensures { result
        ≡ list_any (λ x. not (x == 0)) (take SEGMENT_LEN (drop SEGMENT_PLACE route.now)) }
{
    let (_, segment) = route.split_at(SEGMENT_PLACE);
    BigEndian::read_u64(segment) != 0 || segment[8] != 0 || segment[9] != 0
}

/// Returns `true` for an advertised MAC with an Ethernet segment identifier that isn't 0.
fn is_multihomed(header: &Header, route: &[u8]) -> bool
    requires { HasRoute route.now }
    ensures { result ≡ is_multihomed header.now route.now }
{
    !header.is_withdrawal && route[0] == MAC_ROUTE && has_segment(route)
}

/// Returns `true` if the Ethernet Tag isn't 0.
fn is_tagged(route: &[u8]) -> bool
    requires { HasRoute route.now }
    ensures { result ≡ is_tagged route.now }
{
    let tag = if route[0] == MAC_ROUTE {
        BigEndian::read_u32(&route[MAC_TAG_PLACE..])
    } else {
        BigEndian::read_u32(&route[FLOOD_TAG_PLACE..])
    };
    tag != 0
}

/// Returns `true` for an advertised MAC whose first label isn't the record's VNI.
fn has_other_label(header: &Header, route: &[u8], ip_octets: usize) -> bool
    requires fits { HasRoute route.now }
    requires octets { ip_octets ≡ ip_len route.now }
    ensures { result ≡ has_other_label header.now route.now }
{
    !header.is_withdrawal
        && route[0] == MAC_ROUTE
        && Vni::from_octets(&route[IP_PLACE + ip_octets..]) != header.vni
}

/// Returns `true` if the length of a MAC isn't 48 bits, or it is a group address.
fn has_bad_mac(route: &[u8]) -> bool
    requires { HasRoute route.now }
    ensures { result ≡ has_bad_mac route.now }
{
    route[0] == MAC_ROUTE
        && (route[MAC_BITS_PLACE] != BITS_OF_MAC
            || Mac::from_octets(&route[MAC_PLACE..]).is_group())
}

/// Returns the first refusal of a whole record that applies. `ip_octets` is what `ip_len` returns.
// Inlined: a caller that knows the type and `ip_octets` makes no tests of them.
#[inline(always)]
pub(crate) fn refusal(header: &Header, route: &[u8], ip_octets: usize) -> Option<u8>
    requires octets { ip_octets ≡ ip_len route.now }
    ensures value { result ≡ refusal_of header.now route.now }
    ensures accepted { IfNone result (IsReadable header.now route.now) }
{
    if is_unknown_type(route) {
        return Some(UNKNOWN_TYPE);
    }
    if is_bad_route(header, route, ip_octets) {
        return Some(BAD_ROUTE);
    }
    if has_other_distinguisher(header, route) {
        return Some(RD_MISMATCH);
    }
    if is_multihomed(header, route) {
        return Some(MULTIHOMED);
    }
    if is_tagged(route) {
        return Some(TAG_UNSUPPORTED);
    }
    if has_other_label(header, route, ip_octets) {
        return Some(LABEL_MISMATCH);
    }
    if has_bad_mac(route) {
        return Some(BAD_MAC);
    }
    if header.counter == 0 {
        return Some(COUNTER_ZERO);
    }
    None
}
