//! A route of a record, from its type octet on (RFC 7432, sections 7.2, 7.3 and 7.7; RFC 8365,
//! section 5.1.3, for the first label):
//!
//! | Place | A MAC's (type 2) | A flood list's (type 3) |
//! |---|---|---|
//! | 0 | type | type |
//! | 1 | length: octets that follow | the same |
//! | 2 | route distinguisher, 8 octets: type 1, an address, a number | the same |
//! | 10 | Ethernet segment identifier, 10 | Ethernet Tag, 4 |
//! | 14 | | length of the router's address in bits, 1 |
//! | 15 | | the router's address, 4 |
//! | 20 | Ethernet Tag, 4 | |
//! | 24 | length of the MAC in bits, 1 | |
//! | 25 | the MAC, 6 | |
//! | 31 | length of the IP address in bits, 1 | |
//! | 32 | the IP address, 0, 4 or 16; then the first label, 3; then the second, 0 or 3 | |
//!
//! A MAC Mobility community may follow the route of an advertised MAC: type 6, subtype 0, flags, a
//! reserved octet, a sequence number of 4 octets.
ghost use Rattle.std.specs.Prelude.{◌≡◌, ◌≤◌, length};
ghost use Rattle.route_wire.specs.Route.{ip_len, has_label2, is_listed_len};

/// The type of a MAC's route.
pub(crate) const MAC_ROUTE: u8 = 2;
/// The type of a flood list's route.
pub(crate) const FLOOD_ROUTE: u8 = 3;

/// The place of the second octet of the route distinguisher's type, which is 1.
pub(crate) const RD_TYPE_PLACE: usize = 3;
/// The place of the address in the route distinguisher.
pub(crate) const RD_ADDR_PLACE: usize = 4;
/// The place of the Ethernet segment identifier.
pub(crate) const SEGMENT_PLACE: usize = 10;
/// The number of its octets.
pub(crate) const SEGMENT_LEN: usize = 10;
/// The place of the Ethernet Tag in a MAC's route.
pub(crate) const MAC_TAG_PLACE: usize = 20;
/// The place of the length of the MAC.
pub(crate) const MAC_BITS_PLACE: usize = 24;
/// The place of the MAC.
pub(crate) const MAC_PLACE: usize = 25;
/// The place of the length of its IP address.
pub(crate) const IP_BITS_PLACE: usize = 31;
/// The place of its IP address, or of the first label if there is no IP address.
pub(crate) const IP_PLACE: usize = 32;
/// The place of the second label if there is no IP address.
pub(crate) const LABEL2_PLACE: usize = 35;
/// The place of the Ethernet Tag in a flood list's route.
pub(crate) const FLOOD_TAG_PLACE: usize = 10;
/// The place of the length of the router's address.
pub(crate) const ROUTER_BITS_PLACE: usize = 14;
/// The place of the router's address.
pub(crate) const ROUTER_PLACE: usize = 15;

/// The length of a flood list's route.
pub(crate) const FLOOD_LEN: u8 = 17;
/// The length of a MAC's route without an IP address and a second label.
pub(crate) const MAC_LEN: u8 = 33;
/// The length of a MAC's route without an IP address and with a second label.
pub(crate) const MAC_LEN_LABEL2: u8 = 36;
/// The least length of a MAC's route with an IPv4 address.
pub(crate) const MAC_LEN_V4: u8 = 37;
/// The least length of a MAC's route with an IPv6 address.
pub(crate) const MAC_LEN_V6: u8 = 49;

/// The number of bits of a MAC.
pub(crate) const BITS_OF_MAC: u8 = 48;
/// The number of bits of a router's address.
pub(crate) const BITS_OF_ROUTER: u8 = 32;

/// The octets of a community.
pub(crate) const COMMUNITY_LEN: usize = 8;
/// The type of a community of EVPN (RFC 7153); its subtype 0 is MAC Mobility.
pub(crate) const COMMUNITY_TYPE: u8 = 6;
/// The place of its flags.
pub(crate) const FLAGS_PLACE: usize = 2;
/// The place of its sequence number.
pub(crate) const SEQUENCE_PLACE: usize = 4;

/// Returns the number of octets of the IP address in a MAC's route of this length.
pub(crate) fn ip_len(route: &[u8]) -> usize
    ensures { result ≡ ip_len route.now }
{
    if route.len() < 2 {
        return 0;
    }
    if route[1] < MAC_LEN_V4 {
        0
    } else if route[1] < MAC_LEN_V6 {
        4
    } else {
        16
    }
}

/// Returns `true` if a route of this length, with `ip_octets` octets of an IP address, has a second
/// label.
pub(crate) fn has_label2(route: &[u8], ip_octets: usize) -> bool
    requires short { 2 ≤ length route.now }
    requires octets { ip_octets ≡ ip_len route.now }
    ensures { result ≡ has_label2 route.now }
{
    usize::from(route[1]) == usize::from(MAC_LEN_LABEL2) + ip_octets
}

/// Returns `true` if a route of this type may have this length.
pub(crate) fn is_listed_len(route: &[u8], ip_octets: usize) -> bool
    requires short { 2 ≤ length route.now }
    requires octets { ip_octets ≡ ip_len route.now }
    ensures { result ≡ is_listed_len route.now }
{
    if route[0] == MAC_ROUTE {
        usize::from(route[1]) == usize::from(MAC_LEN) + ip_octets || has_label2(route, ip_octets)
    } else {
        route[1] == FLOOD_LEN
    }
}
