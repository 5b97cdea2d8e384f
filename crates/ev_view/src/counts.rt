//! How much an edge holds.
#![tactic(auto, using(ether_wire::proofs::Appending::with_text_twice, ether_wire::proofs::Appending::with_text_none))]

ghost use Rattle.std.specs.Prelude.{◌≡◌};
ghost use Rattle.ether_wire.specs.Ends.{Puts};
ghost use Rattle.ev_view.specs.Counts.{advertises, pinned_there, frozen_there, one_more};
ghost use Rattle.ev_view.specs.Counts.{counted, counted_all, none_counted};
ghost use Rattle.ev_view.specs.Counts.{amount_words, stations_words, registers_words, pending_words};
ghost use Rattle.ev_view.specs.Counts.{counts_line, counts_text};

use crate::stations::{is_own, own_station};
use ether_wire::{Device, Out, put_decimal};
use ev_edge::Edge;
use mac_arena::Station;
use route_join::{Updates, advert_in};
use route_wire::Update;

/// The counts of the registers of an edge's table.
#[derive(Clone, Copy, Debug)]
pub(crate) struct Counts {
    /// Own registers of a pinned station.
    pinned: u64,
    /// Own registers of a frozen station.
    frozen: u64,
    /// All registers.
    registers: u64,
    /// Own registers that advertise.
    own: u64,
    /// Registers of other edges that advertise.
    foreign: u64,
}

/// Returns `true` if a register's value is an advert.
fn advertises(update: &Update) -> bool
    ensures { result ≡ advertises update.now }
{
    advert_in(&update.value().content).is_some()
}

/// Returns `true` if a station is pinned at an edge.
fn pinned_there(edge: &Edge, station: &Option<Station>) -> bool
    ensures { result ≡ pinned_there edge.now station.now }
{
    match station {
        None => false,
        Some(station) => match edge.routes().look(station) {
            None => false,
            Some(entry) => entry.pinned,
        },
    }
}

/// Returns `true` if a station is frozen at an edge.
fn frozen_there(edge: &Edge, station: &Option<Station>) -> bool
    ensures { result ≡ frozen_there edge.now station.now }
{
    match station {
        None => false,
        Some(station) => edge.is_frozen(station),
    }
}

/// Returns one more if the flag is set. A count stays at its greatest number.
fn one_more(number: u64, is_one: bool) -> u64
    ensures { result ≡ one_more number is_one }
{
    if is_one && number < u64::MAX {
        number + 1
    } else {
        number
    }
}

/// Counts one more register.
fn counted(edge: &Edge, update: &Update, so_far: Counts) -> Counts
    ensures { result ≡ counted edge.now update.now so_far }
{
    let station = own_station(edge, update);
    let own = is_own(edge, update);
    let said = advertises(update);
    Counts {
        pinned: one_more(so_far.pinned, pinned_there(edge, &station)),
        frozen: one_more(so_far.frozen, frozen_there(edge, &station)),
        registers: one_more(so_far.registers, true),
        own: one_more(so_far.own, own && said),
        foreign: one_more(so_far.foreign, !own && said),
    }
}

/// Counts these registers, too.
fn counted_all(edge: &Edge, updates: Updates<'_>) -> Counts
    ensures { result ≡ counted_all edge.now updates.entry none_counted }
{
    let mut so_far = Counts {
        pinned: 0,
        frozen: 0,
        registers: 0,
        own: 0,
        foreign: 0,
    };
    for update in updates {
        so_far = counted(edge, &update, so_far);
    }
    so_far
}

/// Writes a word and its count.
fn put_amount<W: Out>(out: &mut W, word: &[u8], amount: u64) -> Result<(), Device>
    ensures { Puts (W.end out.old) (W.end out.new) (amount_words word.now amount) result }
{
    out.put(word)?;
    put_decimal(out, amount)
}

/// Writes how many stations an edge has learnt and pinned, and how many are frozen.
fn put_stations_words<W: Out>(out: &mut W, edge: &Edge, counts: &Counts) -> Result<(), Device>
    ensures { Puts (W.end out.old) (W.end out.new) (stations_words edge.now counts.now) result }
{
    put_amount(out, b" stations ", edge.entries() as u64)?;
    put_amount(out, b" pinned ", counts.pinned)?;
    put_amount(out, b" frozen ", counts.frozen)
}

/// Writes how many registers an edge has, and how many of them are its adverts, and others'.
fn put_registers_words<W: Out>(out: &mut W, counts: &Counts) -> Result<(), Device>
    ensures { Puts (W.end out.old) (W.end out.new) (registers_words counts.now) result }
{
    put_amount(out, b" registers ", counts.registers)?;
    put_amount(out, b" own ", counts.own)?;
    put_amount(out, b" foreign ", counts.foreign)
}

/// Writes how many own registers an edge has still to announce, and ends the line.
fn put_pending_words<W: Out>(out: &mut W, edge: &Edge) -> Result<(), Device>
    ensures { Puts (W.end out.old) (W.end out.new) (pending_words edge.now) result }
{
    put_amount(out, b" pending ", edge.routes().pending() as u64)?;
    out.put(b"\n")
}

/// Writes the counts of an edge from these counts of its registers.
fn put_line<W: Out>(out: &mut W, number: u64, edge: &Edge, counts: &Counts) -> Result<(), Device>
    ensures { Puts (W.end out.old) (W.end out.new) (counts_line number edge.now counts.now) result }
{
    put_decimal(out, number)?;
    out.put(b" counts")?;
    put_stations_words(out, edge, counts)?;
    put_registers_words(out, counts)?;
    put_pending_words(out, edge)
}

/// Writes the counts of an edge.
pub(crate) fn put_counts<W: Out>(out: &mut W, number: u64, edge: &Edge) -> Result<(), Device>
    ensures { Puts (W.end out.old) (W.end out.new) (counts_text number edge.now) result }
{
    let counts = counted_all(edge, edge.table().updates());
    put_line(out, number, edge, &counts)
}
