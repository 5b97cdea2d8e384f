//! The values at the keys of a table.
#![tactic(auto, using(crate::proofs::Walking::items_more, crate::proofs::Walking::count_of_view))]

ghost use Rattle.std.specs.Prelude.{◌≡◌, ◌+◌, ◌<◌, ◌≤◌, ◌∷◌, ◌&&◌, ℕ, IsTrue, nat_le, length, option_map, IfSome, true, false, eqb, [], codes};
ghost use Rattle.std.specs.List.{list_any, IsDistinct};
ghost use Rattle.std.specs.Option.{option_map_or, unwrap_or};
ghost use Rattle.toml.specs.Data.{get_member, no_items};
ghost use Rattle.toml.specs.View.{view, table_view, array_view};
ghost use Rattle.ev_config.specs.Keys.{is_within, number_in, known_number, number_or, flag_in, addr_in, bridge_in, endpoint_in, device_in, name_in, has_device, is_path, path_in, vni_in, vnis_in, new_among, numbers_from, is_few, are_tables, tables_in, tables_beside, spelt, number_at, flag_at, tables_at};

use crate::endpoint::{Endpoint, read_endpoint};
use crate::schema::{Range, VNI};
use arrayvec::ArrayVec;
use ether_wire::{Addr, Mac, Vni};
use ev_links::DeviceName;
use toml::value::Array;
use toml::{Table, Value};

/// Returns the value at a key.
pub(crate) fn value_at<'a>(table: &'a Table, key: &str) -> Option<&'a Value>
    ensures { option_map (λ v. view v.now) result ≡ get_member key.now (table_view table.now) }
{
    table.get(key)
}

/// Returns `true` if a number is in a range.
fn is_within(number: u64, range: Range) -> bool
    ensures { result ≡ is_within range number }
{
    let Range(low, high, step, _) = range;
    low <= number && number <= high && (step == 0 || number % step == 0)
}

/// Reads an integer of a range.
pub(crate) fn number_in(value: &Value, range: Range) -> Option<u64>
    ensures value { result ≡ number_in range (view value.now) }
    ensures low { IfSome result (λ n. range.0 ≤ n) }
    ensures high { IfSome result (λ n. n ≤ range.1) }
{
    match value.as_integer() {
        Some(number) if number >= 0 => {
            let number = number as u64;
            if is_within(number, range) {
                Some(number)
            } else {
                None
            }
        }
        _ => None,
    }
}

/// Returns the number at a key, or the default if the key is missing; `None` if it is wrong.
pub(crate) fn known_number(table: &Table, key: &str, range: Range) -> Option<u64>
    requires { IsTrue (nat_le range.0 range.3 && nat_le range.3 range.1) }
    ensures value { result ≡ known_number key.now range (table_view table.now) }
    ensures high { IfSome result (λ n. n ≤ range.1) }
{
    match value_at(table, key) {
        Some(value) => number_in(value, range),
        None => Some(range.3),
    }
}

/// Returns the number at a key, or this default.
pub(crate) fn number_or(default: u64, table: &Table, key: &str, range: Range) -> u64
    requires low { range.0 ≤ default }
    requires high { default ≤ range.1 }
    ensures value { result ≡ number_or default key.now range (table_view table.now) }
    ensures low { range.0 ≤ result }
    ensures high { result ≤ range.1 }
{
    match value_at(table, key) {
        Some(value) => number_in(value, range).unwrap_or(default),
        None => default,
    }
}

/// Returns the number at a key, or the default of its range.
pub(crate) fn number(table: &Table, key: &str, range: Range) -> u64
    requires { IsTrue (nat_le range.0 range.3 && nat_le range.3 range.1) }
    ensures value { result ≡ number_at key.now range (table_view table.now) }
    ensures low { range.0 ≤ result }
    ensures high { result ≤ range.1 }
{
    number_or(range.3, table, key, range)
}

/// Returns the flag at a key, or the default.
pub(crate) fn flag(table: &Table, key: &str, default: bool) -> bool
    ensures { result ≡ flag_at key.now default (table_view table.now) }
{
    match value_at(table, key) {
        Some(value) => value.as_bool().unwrap_or(default),
        None => default,
    }
}

/// Returns the address that a value spells.
pub(crate) fn addr_in(value: &Value) -> Option<Addr>
    ensures { result ≡ addr_in (view value.now) }
{
    Addr::read_text(value.as_str()?.as_bytes())
}

/// Returns the address that a table spells.
pub(crate) fn address_at(table: &Table) -> Option<Addr>
    ensures { result ≡ spelt (codes "address") addr_in (table_view table.now) }
{
    addr_in(value_at(table, "address")?)
}

/// Returns the MAC address of one station that a value spells.
pub(crate) fn bridge_in(value: &Value) -> Option<Mac>
    ensures { result ≡ bridge_in (view value.now) }
{
    let mac = Mac::read_text(value.as_str()?.as_bytes())?;
    if mac.is_group() { None } else { Some(mac) }
}

/// Returns the bridge that a table spells.
pub(crate) fn bridge_at(table: &Table) -> Option<Mac>
    ensures { result ≡ spelt (codes "bridge") bridge_in (table_view table.now) }
{
    bridge_in(value_at(table, "bridge")?)
}

/// Returns the endpoint that a value spells.
pub(crate) fn endpoint_in(value: &Value) -> Option<Endpoint>
    ensures { result ≡ endpoint_in (view value.now) }
{
    read_endpoint(value.as_str()?.as_bytes())
}

/// Returns the endpoint at a key.
pub(crate) fn endpoint_at(table: &Table, key: &str) -> Option<Endpoint>
    ensures { result ≡ spelt key.now endpoint_in (table_view table.now) }
{
    endpoint_in(value_at(table, key)?)
}

/// Returns the name of a network device that a value spells.
pub(crate) fn device_in(value: &Value) -> Option<DeviceName>
    ensures { result ≡ device_in (view value.now) }
{
    DeviceName::read_text(value.as_str()?.as_bytes())
}

/// Returns the name of the network device that a table spells.
pub(crate) fn device_at(table: &Table) -> Option<DeviceName>
    ensures { result ≡ spelt (codes "device") device_in (table_view table.now) }
{
    device_in(value_at(table, "device")?)
}

/// Returns the text of a value that is the name of a network device.
fn name_in(value: &Value) -> Option<&str>
    ensures { option_map (λ s. s.now) result ≡ name_in (view value.now) }
{
    let text = value.as_str()?;
    match DeviceName::read_text(text.as_bytes()) {
        Some(_) => Some(text),
        None => None,
    }
}

/// Returns the text of the name of the network device that a table spells.
pub(crate) fn device_name_at(table: &Table) -> Option<&str>
    ensures { option_map (λ s. s.now) result
        ≡ spelt (codes "device") name_in (table_view table.now) }
{
    name_in(value_at(table, "device")?)
}

/// Returns `true` if a port's table has the key of a device, with any value.
pub(crate) fn has_device(table: &Table) -> bool
    ensures { result ≡ has_device (table_view table.now) }
{
    value_at(table, "device").is_some()
}

/// The maximum number of octets in the path of a Unix socket (unix(7)).
const LONGEST_PATH: usize = 107;

/// Returns `true` if these octets are the path of a Unix socket: 1 to 107, none of which is 0.
fn is_path(octets: &[u8]) -> bool
    ensures { result ≡ is_path octets.now }
{
    0 < octets.len() && octets.len() <= LONGEST_PATH && !octets.contains(&0)
}

/// Returns the path of a Unix socket that a value spells.
pub(crate) fn path_in(value: &Value) -> Option<&str>
    ensures { option_map (λ s. s.now) result ≡ path_in (view value.now) }
{
    let text = value.as_str()?;
    if is_path(text.as_bytes()) {
        Some(text)
    } else {
        None
    }
}

/// Returns the path of a Unix socket at a key.
pub(crate) fn path_at<'a>(table: &'a Table, key: &str) -> Option<&'a str>
    ensures { option_map (λ s. s.now) result ≡ spelt key.now path_in (table_view table.now) }
{
    path_in(value_at(table, key)?)
}

/// Returns the VNI of a value.
pub(crate) fn vni_in(value: &Value) -> Option<Vni>
    ensures { result ≡ vni_in (view value.now) }
{
    match number_in(value, VNI) {
        Some(number) => Some(Vni::new(number as u32)),
        None => None,
    }
}

/// Returns the VNI that a table spells.
pub(crate) fn vni_at(table: &Table) -> Option<Vni>
    ensures { result ≡ spelt (codes "vni") vni_in (table_view table.now) }
{
    vni_in(value_at(table, "vni")?)
}

/// Returns `true` if it has 1 to 64 items.
fn is_few(array: &Array) -> bool
    ensures value { result ≡ is_few (array_view array.now) }
    ensures some { result ≡ true → 0 < length array.now.items }
    ensures few { result ≡ true → length array.now.items ≤ 64 }
{
    0 < array.len() && array.len() <= 64
}

/// Returns `true` if all items are tables.
fn are_tables(array: &Array) -> bool
    ensures { result ≡ are_tables (array_view array.now) }
{
    for value in array {
        if !value.is_table() {
            return false;
        }
    }
    true
}

/// Returns the array of 1 to 64 tables of a value.
pub(crate) fn tables_in(value: &Value) -> Option<&Array>
    ensures value { option_map (λ v. array_view v.now) result ≡ tables_in (view value.now) }
    ensures some { IfSome result (λ v. 0 < length v.now.items) }
    ensures few { IfSome result (λ v. length v.now.items ≤ 64) }
{
    match value.as_array() {
        Some(array) if is_few(array) && are_tables(array) => Some(array),
        _ => None,
    }
}

/// Returns the array of 1 to 64 tables at a key.
pub(crate) fn tables_at<'a>(table: &'a Table, key: &str) -> Option<&'a Array>
    ensures value { option_map_or (λ v. array_view v.now) result no_items
        ≡ tables_at key.now (table_view table.now) }
    ensures few { IfSome result (λ v. length v.now.items ≤ 64) }
{
    tables_in(value_at(table, key)?)
}

/// Reads an array of at most 64 tables, together with this number of others.
pub(crate) fn tables_beside(value: &Value, others: usize) -> Option<&Array>
    requires { others ≤ 64 }
    ensures value { option_map (λ v. array_view v.now) result
        ≡ tables_beside others (view value.now) }
    ensures room { IfSome result (λ v. others + length v.now.items ≤ 64) }
{
    match tables_in(value) {
        Some(tables) if others + tables.len() <= 64 => Some(tables),
        _ => None,
    }
}

/// Returns `true` if the VNI is one of these.
pub(crate) fn has_vni(vnis: &[Vni], vni: Vni) -> bool
    ensures { result ≡ list_any (λ x. eqb x vni) vnis.now }
{
    vnis.contains(&vni)
}

/// Returns the VNI of a value, if it differs from those before.
fn new_vni(before: &[Vni], value: &Value) -> Option<Vni>
    ensures value { result ≡ new_among before.now (vni_in (view value.now)) }
    ensures new { IfSome result (λ v. list_any (λ x. eqb x v) before.now ≡ false) }
{
    match vni_in(value) {
        Some(vni) if !has_vni(before, vni) => Some(vni),
        _ => None,
    }
}

/// Returns the distinct VNIs of an array.
fn distinct_vnis(array: &Array) -> Option<ArrayVec<Vni, 64>>
    requires { length array.now.items ≤ 64 }
    ensures { option_map (λ v. v.items) result
        ≡ numbers_from vni_in [] (array_view array.now) }
{
    let mut vnis = ArrayVec::new();
    for value in array {
        match new_vni(vnis.as_slice(), value) {
            Some(vni) => vnis.push(vni),
            None => return None,
        }
    }
    Some(vnis)
}

/// Returns the 1 to 64 distinct VNIs that a value lists.
pub(crate) fn vnis_in(value: &Value) -> Option<ArrayVec<Vni, 64>>
    ensures { option_map (λ v. v.items) result ≡ vnis_in (view value.now) }
{
    match value.as_array() {
        Some(array) if is_few(array) => distinct_vnis(array),
        _ => None,
    }
}

/// Returns the 1 to 64 distinct VNIs that a table lists.
pub(crate) fn vnis_at(table: &Table) -> Option<ArrayVec<Vni, 64>>
    ensures { option_map (λ v. v.items) result
        ≡ spelt (codes "vnis") vnis_in (table_view table.now) }
{
    vnis_in(value_at(table, "vnis")?)
}
