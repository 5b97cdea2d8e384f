//! The stations that an edge has learnt or frozen.
#![tactic(auto, using(ether_wire::proofs::Appending::with_text_twice, ether_wire::proofs::Appending::with_text_none))]

ghost use Rattle.std.specs.Prelude.{◌≡◌};
ghost use Rattle.ether_wire.specs.Ends.{Puts};
ghost use Rattle.ev_view.specs.Stations.{is_own, bare_station, own_station, is_of, age_words};
ghost use Rattle.ev_view.specs.Stations.{place_words, frozen_words, subject_words, station_line, known_line};
ghost use Rattle.ev_view.specs.Stations.{asked_line, stations_text};

use ether_wire::{Device, Out, Vni, put_decimal, put_mac};
use ev_edge::Edge;
use mac_arena::{Entry, Station};
use route_wire::{Key, Update};

/// Returns `true` if the edge is the register's originator.
pub(crate) fn is_own(edge: &Edge, update: &Update) -> bool
    ensures { result ≡ is_own edge.now update.now }
{
    update.register().originator == edge.routes().address()
}

/// Returns the station of a key without an IP address.
fn bare_station(key: &Key) -> Option<Station>
    ensures { result ≡ bare_station key.now }
{
    match key {
        Key::Flood(_) => None,
        Key::Mac(_, _, Some(_)) => None,
        Key::Mac(vni, mac, None) => Some(Station {
            vni: *vni,
            mac: *mac,
        }),
    }
}

/// Returns the station of an own register.
pub(crate) fn own_station(edge: &Edge, update: &Update) -> Option<Station>
    ensures { result ≡ own_station edge.now update.now }
{
    if is_own(edge, update) {
        bare_station(&update.register().key)
    } else {
        None
    }
}

/// Returns `true` if the VNI is the queried one, or none was given.
fn is_of(asked: &Option<Vni>, vni: Vni) -> bool
    ensures { result ≡ is_of asked.now vni }
{
    match asked {
        None => true,
        Some(asked) => *asked == vni,
    }
}

/// Writes the seconds since the station's last frame, or that it is pinned.
fn put_age<W: Out>(out: &mut W, edge: &Edge, entry: &Entry) -> Result<(), Device>
    ensures { Puts (W.end out.old) (W.end out.new) (age_words edge.now entry.now) result }
{
    if entry.pinned {
        return out.put(b" pinned");
    }
    out.put(b" age ")?;
    put_decimal(out, edge.clock().saturating_sub(entry.last))
}

/// Writes the port of a station, if it is learnt.
fn put_place<W: Out>(out: &mut W, edge: &Edge, entry: &Option<Entry>) -> Result<(), Device>
    ensures { Puts (W.end out.old) (W.end out.new) (place_words edge.now entry.now) result }
{
    let Some(entry) = entry else {
        return Ok(());
    };
    out.put(b" port ")?;
    put_decimal(out, u64::from(entry.port))?;
    put_age(out, edge, entry)
}

/// Writes that a station is frozen, if it is.
fn put_frozen<W: Out>(out: &mut W, frozen: bool) -> Result<(), Device>
    ensures { Puts (W.end out.old) (W.end out.new) (frozen_words frozen) result }
{
    if frozen {
        return out.put(b" frozen");
    }
    Ok(())
}

/// Writes the station of a line.
fn put_subject<W: Out>(out: &mut W, number: u64, station: &Station) -> Result<(), Device>
    ensures { Puts (W.end out.old) (W.end out.new) (subject_words number station.now) result }
{
    put_decimal(out, number)?;
    out.put(b" station ")?;
    put_decimal(out, u64::from(station.vni.number()))?;
    out.put(b" ")?;
    put_mac(out, station.mac)
}

/// Writes the line of a station: its port, if it is learnt, and whether it is frozen.
fn put_station<W: Out>(
    out: &mut W,
    number: u64,
    edge: &Edge,
    station: &Station,
    entry: &Option<Entry>,
    frozen: bool,
) -> Result<(), Device>
    ensures { Puts (W.end out.old) (W.end out.new)
        (station_line number edge.now station.now entry.now frozen) result }
{
    put_subject(out, number, station)?;
    put_place(out, edge, entry)?;
    put_frozen(out, frozen)?;
    out.put(b"\n")
}

/// Writes the line of a station that is learnt or frozen.
fn put_known<W: Out>(out: &mut W, number: u64, edge: &Edge, station: &Station) -> Result<(), Device>
    ensures { Puts (W.end out.old) (W.end out.new) (known_line number edge.now station.now) result }
{
    let entry = edge.routes().look(station);
    let frozen = edge.is_frozen(station);
    if entry.is_some() || frozen {
        return put_station(out, number, edge, station, &entry, frozen);
    }
    Ok(())
}

/// Writes the line of an update's station, if the query covers it.
fn put_asked<W: Out>(
    out: &mut W,
    number: u64,
    edge: &Edge,
    vni: &Option<Vni>,
    station: &Option<Station>,
) -> Result<(), Device>
    ensures { Puts (W.end out.old) (W.end out.new)
        (asked_line number edge.now vni.now station.now) result }
{
    let Some(station) = station else {
        return Ok(());
    };
    if is_of(vni, station.vni) {
        return put_known(out, number, edge, station);
    }
    Ok(())
}

/// Writes the stations that an edge has learnt or frozen, of one VNI or of all.
pub(crate) fn put_stations<W: Out>(
    out: &mut W,
    number: u64,
    edge: &Edge,
    vni: &Option<Vni>,
) -> Result<(), Device>
    ensures { Puts (W.end out.old) (W.end out.new) (stations_text number edge.now vni.now) result }
{
    for update in edge.table().updates() {
        put_asked(out, number, edge, vni, &own_station(edge, &update))?;
    }
    Ok(())
}
