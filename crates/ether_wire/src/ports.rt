//! Sets of access ports, as numbers of 64 bits: port p, from 1 to 64, is bit p - 1.
ghost use Rattle.std.specs.Prelude.{◌≡◌, ℕ, ◌<◌, ◌==◌, ◌&&◌, ◌||◌, not, false, [], ◌++◌, codes, IfSome, IfNone};
ghost use Rattle.std.specs.Fmt.{decimal};
ghost use Rattle.ether_wire.specs.Ends.{Puts};
ghost use Rattle.ether_wire.specs.Ports.{IsPort, IsNextPort, place_of_port, has_port, no_ports, with_port, without_port, common_ports, ports_after, ports_of, ArePortsOf, comma_text, ports_text};

use crate::ends::{Device, Out};
use crate::text::put_decimal;

/// Returns the place of the port in a list that has an element for each port, port 1 first.
pub fn place_of_port(port: u8) -> usize
    requires { 0 < port }
    ensures { result ≡ place_of_port port }
{
    port as usize - 1
}

/// The empty set of ports.
pub const NO_PORTS: u64 = 0;

/// Returns `true` if the port is in the set.
pub fn has_port(set: u64, port: u8) -> bool
    requires { IsPort port }
    ensures { result ≡ has_port set port }
{
    set >> (port - 1) & 1 == 1
}

/// Returns the set with this port.
pub fn with_port(set: u64, port: u8) -> u64
    requires { IsPort port }
    ensures value { result ≡ with_port set port }
    ensures ports { (p : ℕ) → has_port result p ≡ (port == p || has_port set p) }
{
    set | 1 << (port - 1)
}

/// Returns the set without this port.
pub fn without_port(set: u64, port: u8) -> u64
    requires { IsPort port }
    ensures value { result ≡ without_port set port }
    ensures ports { (p : ℕ) → has_port result p ≡ (not (port == p) && has_port set p) }
{
    set & !(1 << (port - 1))
}

/// Returns the ports that are in both sets.
pub fn common_ports(set: u64, other: u64) -> u64
    ensures value { result ≡ common_ports set other }
    ensures ports { (p : ℕ) → has_port result p ≡ (has_port set p && has_port other p) }
{
    set & other
}

/// Returns the first port of the set after this number: after 0, the first port of the set. A walk
/// that starts at 0 and continues after each returned port visits each port of the set once, in
/// ascending order.
pub fn next_port(set: u64, after: u8) -> Option<u8>
    ensures some { IfSome result (IsNextPort set after) }
    ensures none { IfNone result (ports_after set after ≡ []) }
{
    if after >= 64 {
        return None;
    }
    let later = set >> after;
    if later == 0 {
        return None;
    }
    Some(after + 1 + later.trailing_zeros() as u8)
}

/// Writes the numbers of the ports, ascending and with commas between them, or a dash if there is
/// none.
pub fn put_ports<O: Out>(out: &mut O, set: u64) -> Result<(), Device>
    ensures { Puts (O.end out.old) (O.end out.new) (ports_text set) result }
{
    let Some(first) = next_port(set, 0) else {
        return out.put(b"-")
    };
    put_decimal(out, u64::from(first))?;
    put_later(out, set, first)
}

/// Writes the numbers of the ports after `first`, each with a comma before it.
fn put_later<O: Out>(out: &mut O, set: u64, first: u8) -> Result<(), Device>
    ensures { Puts (O.end out.old) (O.end out.new) (comma_text (ports_after set first)) result }
{
    let mut port = first;
    while let Some(next) = next_port(set, port) {
        put_behind_comma(out, next)?;
        port = next;
    }
    Ok(())
}

/// Writes a comma, and the number of a port.
fn put_behind_comma<O: Out>(out: &mut O, port: u8) -> Result<(), Device>
    ensures { Puts (O.end out.old) (O.end out.new) (codes "," ++ decimal port) result }
{
    out.put(b",")?;
    put_decimal(out, u64::from(port))
}

/// Laws: two sets with the same ports are equal, and no port is in `NO_PORTS`. A walk from 0 visits
/// each port of the set once, in ascending order, and no other port.
pub fn same_ports(set: u64, other: u64)
    ensures same { ((p : ℕ) → IsPort p → has_port set p ≡ has_port other p) → set ≡ other }
    ensures none { (p : ℕ) → has_port no_ports p ≡ false }
    ensures ascend { ArePortsOf set (ports_of set) }
{}
