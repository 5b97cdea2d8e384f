//! The octets that are written for an update: a record of the newest version.
ghost use Rattle.std.specs.Prelude.{◌≡◌, ◌+◌, ◌≤◌, ◌<◌, ◌^◌, ◌∷◌, [], ◌++◌, List, ℕ, Ok, length};
ghost use Rattle.byteorder.specs.Endian.{big_bytes};
ghost use Rattle.arrayvec.specs.ArrayVec.{array_vec_len};
ghost use Rattle.route_wire.specs.Order.{vni_of, label2_of, sequence_of};
ghost use Rattle.route_wire.specs.Record.{Spells, Reads};
ghost use Rattle.route_wire.specs.Encode.{ip_octets, label2_octets, distinguisher, no_segment, mac_route, flood_route, community, mobility, route_octets, kind_of, record_octets, spelling_of};
ghost use Rattle.route_wire.specs.Inner.Encode.{IpFits, Label2Fits, RouteFits};

use crate::route::{
    BITS_OF_MAC, BITS_OF_ROUTER, COMMUNITY_TYPE, FLOOD_LEN, FLOOD_ROUTE, MAC_LEN, MAC_ROUTE,
};
use crate::stream::{
    ADVERTISES, LEAST_LATER, LONGEST, MAGIC_FIRST, MAGIC_SECOND, NEWEST, WITHDRAWS,
};
use crate::update::{Addr6, Content, Ip, Key, Register, Update, Value};
use arrayvec::ArrayVec;
use ether_wire::{Addr, Mac, Vni};

/// A record, or a part of one.
type Octets = ArrayVec<u8, LONGEST>;

/// Appends octets for which there is room.
fn put(out: &mut Octets, octets: &[u8])
    requires { array_vec_len out.old + length octets.now ≤ LONGEST }
    ensures items { out.new.items ≡ out.old.items ++ octets.now }
    ensures len { array_vec_len out.new ≡ array_vec_len out.old + length octets.now }
{
    match out.try_extend_from_slice(octets) {
        Ok(()) => {}
        Err(_) => unreachable!(),
    }
}

/// Appends the four octets of an address.
fn put_addr(out: &mut Octets, address: Addr)
    requires { array_vec_len out.old + 4 ≤ LONGEST }
    ensures items { out.new.items ≡ out.old.items ++ big_bytes 4 address }
    ensures len { array_vec_len out.new ≡ array_vec_len out.old + 4 }
{
    put(out, &address.number().to_be_bytes());
}

/// Appends the sixteen octets of an address.
fn put_addr6(out: &mut Octets, address: Addr6)
    requires { array_vec_len out.old + 16 ≤ LONGEST }
    ensures items { out.new.items ≡ out.old.items ++ big_bytes 16 address }
    ensures len { array_vec_len out.new ≡ array_vec_len out.old + 16 }
{
    put(out, &address.number().to_be_bytes());
}

/// Appends the three octets of a VNI.
fn put_vni(out: &mut Octets, vni: Vni)
    requires { array_vec_len out.old + 3 ≤ LONGEST }
    ensures items { out.new.items ≡ out.old.items ++ big_bytes 3 vni }
    ensures len { array_vec_len out.new ≡ array_vec_len out.old + 3 }
{
    let [_, a, b, c] = vni.number().to_be_bytes();
    put(out, &[a, b, c]);
}

/// Appends the six octets of a MAC.
fn put_mac(out: &mut Octets, mac: Mac)
    requires { array_vec_len out.old + 6 ≤ LONGEST }
    ensures items { out.new.items ≡ out.old.items ++ big_bytes 6 mac }
    ensures len { array_vec_len out.new ≡ array_vec_len out.old + 6 }
    ensures fits { mac < 2 ^ 48 }
{
    let [_, _, a, b, c, d, e, f] = mac.number().to_be_bytes();
    put(out, &[a, b, c, d, e, f]);
}

/// Appends the route distinguisher of an originator, with the number 1.
fn put_distinguisher(out: &mut Octets, originator: Addr)
    requires { array_vec_len out.old + 8 ≤ LONGEST }
    ensures items { out.new.items ≡ out.old.items ++ distinguisher originator }
    ensures len { array_vec_len out.new ≡ array_vec_len out.old + 8 }
{
    put(out, &[0, 1]);
    put_addr(out, originator);
    put(out, &[0, 1]);
}

/// Returns the number of octets of an IP address.
fn ip_octets_len(ip: Option<Ip>) -> u8
    ensures value { result ≡ length (ip_octets ip) }
    ensures small { result ≤ 16 }
{
    match ip {
        None => 0,
        Some(ip) => { if ip.version() == 4 { 4 } else { 16 } }
    }
}

/// Appends the octets of an IP address.
fn put_ip(out: &mut Octets, ip: Option<Ip>)
    requires { array_vec_len out.old + length (ip_octets ip) ≤ LONGEST }
    ensures items { out.new.items ≡ out.old.items ++ ip_octets ip }
    ensures len { array_vec_len out.new ≡ array_vec_len out.old + length (ip_octets ip) }
    ensures fits { IpFits ip }
{
    let Some(ip) = ip else { return };
    match ip {
        Ip::V4(address) => put_addr(out, address),
        Ip::V6(address) => put_addr6(out, address),
    }
}

/// Returns the number of octets of a second label.
fn label2_octets_len(label2: Option<Vni>) -> u8
    ensures value { result ≡ length (label2_octets label2) }
    ensures small { result ≤ 3 }
{
    if label2.is_some() { 3 } else { 0 }
}

/// Appends a second label.
fn put_label2(out: &mut Octets, label2: Option<Vni>)
    requires { array_vec_len out.old + length (label2_octets label2) ≤ LONGEST }
    ensures items { out.new.items ≡ out.old.items ++ label2_octets label2 }
    ensures len { array_vec_len out.new ≡ array_vec_len out.old + length (label2_octets label2) }
    ensures fits { Label2Fits label2 }
{
    if let Some(label2) = label2 {
        put_vni(out, label2);
    }
}

/// Appends the route of a MAC.
fn put_mac_route(
    out: &mut Octets,
    originator: Addr,
    vni: Vni,
    mac: Mac,
    ip: &Option<Ip>,
    label2: &Option<Vni>,
)
    requires { array_vec_len out.old + 54 ≤ LONGEST }
    ensures items { out.new.items
        ≡ out.old.items ++ mac_route originator vni mac ip.now label2.now }
    ensures len { array_vec_len out.new ≤ array_vec_len out.old + 54 }
    ensures fits { (mac < 2 ^ 48) × IpFits ip.now × Label2Fits label2.now }
{
    let octets = ip_octets_len(*ip);
    put(
        out,
        &[MAC_ROUTE, MAC_LEN + octets + label2_octets_len(*label2)],
    );
    put_distinguisher(out, originator);
    put(
        out,
        &[0, 0, 0, 0, 0, 0, 0, 0, 0, 0, 0, 0, 0, 0, BITS_OF_MAC],
    );
    put_mac(out, mac);
    put(out, &[8 * octets]);
    put_ip(out, *ip);
    put_vni(out, vni);
    put_label2(out, *label2);
}

/// Appends the route of a flood list.
fn put_flood_route(out: &mut Octets, originator: Addr)
    requires { array_vec_len out.old + 19 ≤ LONGEST }
    ensures items { out.new.items ≡ out.old.items ++ flood_route originator }
    ensures len { array_vec_len out.new ≡ array_vec_len out.old + 19 }
{
    put(out, &[FLOOD_ROUTE, FLOOD_LEN]);
    put_distinguisher(out, originator);
    put(out, &[0, 0, 0, 0, BITS_OF_ROUTER]);
    put_addr(out, originator);
}

/// Appends a community if the MAC is static or the sequence number isn't 0.
fn put_community(out: &mut Octets, is_static: bool, sequence: u32)
    requires { array_vec_len out.old + 8 ≤ LONGEST }
    ensures items { out.new.items ≡ out.old.items ++ community is_static sequence }
    ensures len { array_vec_len out.new ≤ array_vec_len out.old + 8 }
{
    if is_static || sequence != 0 {
        put(out, &[COMMUNITY_TYPE, 0, u8::from(is_static), 0]);
        put(out, &sequence.to_be_bytes());
    }
}

/// Returns the second label that is written: a withdrawal has none.
fn label2_of(content: &Content) -> Option<Vni>
    ensures { result ≡ label2_of content.now }
{
    match content {
        Content::Withdrawn => None,
        Content::Advert(advert) => advert.label2,
    }
}

/// Appends the octets after the route of a MAC.
fn put_mobility(out: &mut Octets, content: &Content)
    requires { array_vec_len out.old + 8 ≤ LONGEST }
    ensures items { out.new.items ≡ out.old.items ++ mobility content.now }
    ensures len { array_vec_len out.new ≤ array_vec_len out.old + 8 }
    ensures fits { sequence_of content.now < 2 ^ 32 }
{
    if let Content::Advert(advert) = content {
        put_community(out, advert.is_static, advert.sequence);
    }
}

/// Returns the route of a register, and the octets after it.
fn route(register: &Register, content: &Content) -> Octets
    ensures items { result.items
        ≡ route_octets register.now.originator register.now.key content.now }
    ensures len { array_vec_len result ≤ 62 }
    ensures fits { RouteFits register.now.key content.now }
{
    let mut out = ArrayVec::new();
    match register.key {
        Key::Flood(_) => put_flood_route(&mut out, register.originator),
        Key::Mac(vni, mac, ip) => {
            put_mac_route(
                &mut out,
                register.originator,
                vni,
                mac,
                &ip,
                &label2_of(content),
            );
            put_mobility(&mut out, content);
        }
    }
    out
}

/// Returns 1 for an advert, 2 for a withdrawal.
fn kind_of(content: &Content) -> u8
    ensures { result ≡ kind_of content.now }
{
    match content {
        Content::Withdrawn => WITHDRAWS,
        Content::Advert(_) => ADVERTISES,
    }
}

/// Returns the record of a register and a value, with this route.
fn record(register: &Register, value: &Value, route: &[u8]) -> Octets
    requires { length route.now ≤ 62 }
    ensures fits { vni_of register.now.key < 2 ^ 24 }
    ensures items { result.items
        ≡ record_octets (kind_of value.now.content) register.now.originator value.now.incarnation
        value.now.counter (vni_of register.now.key) route.now }
{
    let mut out = ArrayVec::new();
    put(
        &mut out,
        &[MAGIC_FIRST, MAGIC_SECOND, NEWEST, kind_of(&value.content)],
    );
    let follow = LEAST_LATER + route.len() as u16;
    put(&mut out, &follow.to_be_bytes());
    put_addr(&mut out, register.originator);
    put(&mut out, &value.incarnation.to_be_bytes());
    put(&mut out, &value.counter.to_be_bytes());
    put_vni(&mut out, register.key.vni());
    put(&mut out, route);
    out
}

/// Returns the record of version 3 that spells the update, of at most 87 octets. It has a community
/// only if the sequence number isn't 0 or the static flag is set. A withdrawal has its key's IP
/// address and no second label.
pub fn write(update: &Update) -> ArrayVec<u8, LONGEST>
    ensures octets { result.items ≡ spelling_of update.now }
    ensures spells { Spells result.items update.now }
    ensures again { (rest : List ℕ) → Reads (result.items ++ rest) (Ok update.now ∷ []) rest }
{
    update.always_well_formed();
    let (register, value) = (update.register(), update.value());
    let route = route(&register, &value.content);
    record(&register, &value, route.as_slice())
}
