//! The numbers of links as their threads show them, and the rows that a console prints of them.
ghost use Rattle.std.specs.Prelude.{◌≡◌, ◌+◌, ◌-◌, ◌^◌, min, map, IfOk};
ghost use Rattle.ev_console.specs.Inner.LinksShown.{drops_at, drops_of};

use ev_links::Flow;
use ev_mailboxes::{DropReason, LinkCounts};
use ev_view::LinkRow;
use std::alloc::{AllocError, Global};

/// The numbers of a link, loaded from the cells in which the edge's threads show them.
#[derive(Clone, Copy, Debug, PartialEq, Eq)]
pub(crate) struct Loaded {
    /// The datagrams that came.
    received: Flow,
    /// The reads that failed.
    failed_reads: u64,
    /// The seconds since the last datagram came.
    idle_in: u64,
    /// The datagrams that were sent at once.
    at_once: Flow,
    /// The datagrams that the link's worker sent.
    queued: Flow,
    /// The sends that failed.
    failed_sends: u64,
    /// The seconds since the last datagram was sent.
    idle_out: u64,
    /// The dropped datagrams whose frame was too long.
    too_long: u64,
    /// The dropped datagrams that held no frame.
    malformed: u64,
    /// The dropped datagrams from edges that aren't listed.
    unlisted: u64,
    /// The dropped datagrams of networks that the edge doesn't serve.
    other_network: u64,
    /// The dropped group and unknown frames beyond the storm limit of the port.
    storm: u64,
    /// The datagrams that were dropped because memory was refused.
    no_memory: u64,
    /// The frames and BPDUs that were dropped because there was no room.
    no_room: u64,
}

impl Loaded {
    /// Loads the numbers of a link. No clause knows what a cell holds: a test compares each number.
    pub(crate) fn load(counts: &LinkCounts) -> Self {
        Loaded {
            received: counts.received.shown(),
            failed_reads: counts.received.failures(),
            idle_in: counts.idle_in(),
            at_once: counts.at_once.shown(),
            queued: counts.queued.shown(),
            failed_sends: counts.queued.failures(),
            idle_out: counts.idle_out(),
            too_long: counts.refused(DropReason::TooLong),
            malformed: counts.refused(DropReason::Malformed),
            unlisted: counts.refused(DropReason::Unlisted),
            other_network: counts.refused(DropReason::OtherNetwork),
            storm: counts.refused(DropReason::Storm),
            no_memory: counts.refused(DropReason::NoMemory),
            no_room: counts.no_room(),
        }
    }

    /// Returns the row of these numbers, with the drops of the system. Datagrams that were sent at
    /// once and those that the link's worker sent are counted together.
    pub(crate) fn row(&self, system_drops: Option<u64>) -> LinkRow
        ensures received { result.received ≡ self.now.received.datagrams }
        ensures received_octets { result.received_octets ≡ self.now.received.octets }
        ensures failed_reads { result.failed_reads ≡ self.now.failed_reads }
        ensures idle_in { result.idle_in ≡ self.now.idle_in }
        ensures too_long { result.too_long ≡ self.now.too_long }
        ensures malformed { result.malformed ≡ self.now.malformed }
        ensures unlisted { result.unlisted ≡ self.now.unlisted }
        ensures other_network { result.other_network ≡ self.now.other_network }
        ensures storm { result.storm ≡ self.now.storm }
        ensures no_memory { result.no_memory ≡ self.now.no_memory }
        ensures system_drops { result.system_drops ≡ system_drops }
        ensures sent { result.sent
            ≡ min (self.now.at_once.datagrams + self.now.queued.datagrams) (2 ^ 64 - 1) }
        ensures sent_octets { result.sent_octets
            ≡ min (self.now.at_once.octets + self.now.queued.octets) (2 ^ 64 - 1) }
        ensures no_room { result.no_room ≡ self.now.no_room }
        ensures failed_sends { result.failed_sends ≡ self.now.failed_sends }
        ensures idle_out { result.idle_out ≡ self.now.idle_out }
    {
        LinkRow {
            received: self.received.datagrams,
            received_octets: self.received.octets,
            failed_reads: self.failed_reads,
            idle_in: self.idle_in,
            too_long: self.too_long,
            malformed: self.malformed,
            unlisted: self.unlisted,
            other_network: self.other_network,
            storm: self.storm,
            no_memory: self.no_memory,
            system_drops,
            sent: self.at_once.datagrams.saturating_add(self.queued.datagrams),
            sent_octets: self.at_once.octets.saturating_add(self.queued.octets),
            no_room: self.no_room,
            failed_sends: self.failed_sends,
            idle_out: self.idle_out,
        }
    }
}

/// Returns the drops at a place of these, or `None` if there is no such place.
fn drops_at(drops: &[Option<u64>], place: usize) -> Option<u64>
    ensures { result ≡ drops_at drops.now place }
{
    match drops.get(place) {
        Some(drops) => *drops,
        None => None,
    }
}

/// Loads the numbers of these links, and returns a row for each link, with its drops of the system.
///
/// # Errors
///
/// `AllocError` if memory is refused.
pub(crate) fn rows_of(
    alloc: Global,
    links: &[LinkCounts],
    drops: &[Option<u64>],
) -> Result<Vec<LinkRow>, AllocError>
    ensures { IfOk result
        (λ rows. map (λ row. row.system_drops) rows.items ≡ drops_of drops.now links.now) }
{
    let mut rows = Vec::with_capacity(alloc, links.len())?;
    for (place, counts) in links.iter().enumerate() {
        let system_drops = drops_at(drops, place);
        rows.push_reserved(Loaded::load(counts).row(system_drops));
    }
    Ok(rows)
}
