//! The summary of a valid configuration.
#![tactic(auto, using(ether_wire::proofs::Appending::with_text_twice, ether_wire::proofs::Appending::with_text_none, crate::proofs::Counting::served_more, crate::proofs::Counting::again, crate::proofs::Counting::vnis_more))]

ghost use Rattle.std.specs.Prelude.{◌≡◌, ◌+◌, ◌≤◌, ◌++◌, ◌==◌, if◌then◌else◌, [], length, codes, eqb};
ghost use Rattle.std.specs.List.{list_any};
ghost use Rattle.ether_wire.specs.Ends.{Puts};
ghost use Rattle.ev_config.specs.Summary.{port_count, count_different, all_vnis, vni_count, peer_count, counted, peers_text, ports_text, vnis_text, summary_text};

use crate::values::has_vni;
use crate::whole::Config;
use ether_wire::{Device, Out, Vni, put_decimal};
use ev_edge::EdgeConfig;

/// Returns the number of ports of the edges.
fn count_ports(edges: &[EdgeConfig]) -> u64
    requires { length edges.now ≤ 64 }
    ensures { result ≡ port_count edges.now }
{
    let mut count = 0;
    for edge in edges {
        count += edge.ports.len() as u64;
    }
    count
}

/// Returns `true` if one of the edges serves the VNI.
fn is_served(edges: &[EdgeConfig], vni: Vni) -> bool
    ensures { result ≡ list_any (λ x. eqb x vni) (all_vnis edges.now) }
{
    for edge in edges {
        if has_vni(edge.vnis.as_slice(), vni) {
            return true;
        }
    }
    false
}

/// Returns 0 if the VNI is one of the rest, or one of the later edges serves it, and otherwise 1.
fn count_last(vni: Vni, rest: &[Vni], later: &[EdgeConfig]) -> u64
    ensures value { result ≡ (if list_any (λ x. eqb x vni) (rest.now ++ all_vnis later.now)
        then 0 else 1) }
    ensures few { result ≤ 1 }
{
    if has_vni(rest, vni) || is_served(later, vni) {
        0
    } else {
        1
    }
}

/// Returns the number of different VNIs among these that none of the later edges serves.
fn count_new(vnis: &[Vni], later: &[EdgeConfig]) -> u64
    requires { length vnis.now ≤ 64 }
    ensures value { result + vni_count later.now
        ≡ count_different (vnis.now ++ all_vnis later.now) }
    ensures few { result ≤ 64 }
{
    let mut count = 0;
    for (place, vni) in vnis.iter().enumerate() {
        let (_, rest) = vnis.split_at(place + 1);
        count += count_last(*vni, rest, later);
    }
    count
}

/// Returns the number of VNIs that the edges serve.
fn count_vnis(edges: &[EdgeConfig]) -> u64
    requires { length edges.now ≤ 64 }
    ensures { result ≡ vni_count edges.now }
{
    let mut count = 0;
    for (place, edge) in edges.iter().enumerate() {
        let (_, later) = edges.split_at(place + 1);
        count += count_new(edge.vnis.as_slice(), later);
    }
    count
}

/// Returns the number of edges that run elsewhere.
fn count_peers(edges: &[EdgeConfig]) -> u64
    ensures { result ≡ peer_count edges.now }
{
    match edges {
        [] => 0,
        [edge, ..] => edge.originators.len().saturating_sub(edges.len()) as u64,
    }
}

/// Writes the plural's ending, unless the number is 1.
fn put_ending<W: Out>(out: &mut W, count: u64) -> Result<(), Device>
    ensures { Puts (W.end out.old) (W.end out.new)
        (if count == 1 then [] else codes "s") result }
{
    if count == 1 {
        return Ok(());
    }
    out.put(b"s")
}

/// Writes a number of things, and their word.
fn put_count<W: Out>(out: &mut W, count: u64, word: &[u8]) -> Result<(), Device>
    ensures { Puts (W.end out.old) (W.end out.new) (counted count word.now) result }
{
    put_decimal(out, count)?;
    out.put(word)?;
    put_ending(out, count)
}

/// Writes the number of edges that run elsewhere, if there are any.
fn put_peers<W: Out>(out: &mut W, count: u64) -> Result<(), Device>
    ensures { Puts (W.end out.old) (W.end out.new) (peers_text count) result }
{
    if count == 0 {
        return Ok(());
    }
    out.put(b", ")?;
    put_count(out, count, b" peer")
}

/// Writes the numbers of edges and ports.
fn put_ports<W: Out>(out: &mut W, edges: &[EdgeConfig]) -> Result<(), Device>
    requires { length edges.now ≤ 64 }
    ensures { Puts (W.end out.old) (W.end out.new) (ports_text edges.now) result }
{
    out.put(b"ok: ")?;
    put_count(out, edges.len() as u64, b" edge")?;
    out.put(b", ")?;
    put_count(out, count_ports(edges), b" port")
}

/// Writes the numbers of VNIs and peers.
fn put_vnis<W: Out>(out: &mut W, edges: &[EdgeConfig]) -> Result<(), Device>
    requires { length edges.now ≤ 64 }
    ensures { Puts (W.end out.old) (W.end out.new) (vnis_text edges.now) result }
{
    out.put(b", ")?;
    put_count(out, count_vnis(edges), b" VNI")?;
    put_peers(out, count_peers(edges))?;
    out.put(b"\n")
}

/// Writes the summary of a valid configuration: the numbers of edges, ports, VNIs and peers.
///
/// # Errors
///
/// `Device` exactly if a call of the writer failed; then no further call is made.
pub fn put_summary<W: Out>(out: &mut W, config: &Config) -> Result<(), Device>
    ensures { Puts (W.end out.old) (W.end out.new) (summary_text config.now.edges.items) result }
{
    let edges = config.edges.as_slice();
    put_ports(out, edges)?;
    put_vnis(out, edges)
}
