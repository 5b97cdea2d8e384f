//! The migration of records of versions 1 and 2, in which the IP address is part of the content, to
//! version 3, in which it is part of the key.
#![tactic(auto, using(ether_wire::proofs::Appending::with_text_twice, ether_wire::proofs::Appending::with_text_none))]

ghost use Rattle.std.specs.Prelude.{◌≡◌, ◌+◌, ◌<◌, ◌^◌, ◌||◌, true, false, drop, if◌then◌else◌, []};
ghost use Rattle.ether_wire.specs.Ends.{IsOpen, Allows, Puts};
ghost use Rattle.route_wire.specs.Order.{ip_version, ip_number, ip_cmp, ip_of, rank_of, sequence_of, label2_of};
ghost use Rattle.route_join.specs.Table.{AreOriginators};
ghost use Rattle.ev_report.specs.Migrated.{is_same_subject, is_same_old, old_cmp, newer_old, migrated_at, newest_along, migrated_of, records_of};
ghost use Rattle.ev_report.specs.Inner.Migrated.{behind};
ghost use Rattle.ev_report.specs.Ends.{devices};
ghost use Rattle.ev_report.specs.Notes.{has_stopped};
ghost use Rattle.ev_report.specs.Migrations.{Migrates};

use crate::ending::Ending;
use crate::report::{has_failed, status_of};
use crate::status::Status;
use crate::stream::Intake;
use arrayvec::ArrayVec;
use ether_wire::{Addr, Device, In, Out, Vni};
use route_join::{Table, Updates};
use route_wire::{Content, Feed, Ip, Key, Register, Update, Value, write};
use std::alloc::Global;
use std::cmp::Ordering;

/// Whether two keys are about the same flood list or MAC address, whatever the IP address.
fn is_same_subject(one: &Key, other: &Key) -> bool
    ensures { result ≡ is_same_subject one.now other.now }
{
    match (one, other) {
        (Key::Flood(v), Key::Flood(w)) => v == w,
        (Key::Mac(v, m, _), Key::Mac(w, n, _)) => v == w && m == n,
        (Key::Flood(_), Key::Mac(_, _, _)) => false,
        (Key::Mac(_, _, _), Key::Flood(_)) => false,
    }
}

/// Whether two registers were one in versions 1 and 2.
fn is_same_old(one: &Register, other: &Register) -> bool
    ensures { result ≡ is_same_old one.now other.now }
{
    one.originator == other.originator && is_same_subject(&one.key, &other.key)
}

/// Withdrawn, dynamic, static.
fn rank(content: &Content) -> u8
    ensures { result ≡ rank_of content.now }
{
    match content {
        Content::Withdrawn => 0,
        Content::Advert(advert) => if advert.is_static { 2 } else { 1 },
    }
}

/// The sequence number, 0 for none.
fn sequence(content: &Content) -> u32
    ensures { result ≡ sequence_of content.now }
{
    match content {
        Content::Withdrawn => 0,
        Content::Advert(advert) => advert.sequence,
    }
}

/// The second label, if there is one.
fn label2(content: &Content) -> Option<Vni>
    ensures { result ≡ label2_of content.now }
{
    match content {
        Content::Withdrawn => None,
        Content::Advert(advert) => advert.label2,
    }
}

/// 4 or 6, or 0 for no address.
fn ip_version(ip: Option<Ip>) -> u8
    ensures { result ≡ ip_version ip }
{
    match ip {
        None => 0,
        Some(ip) => ip.version(),
    }
}

/// The number of an address's octets, 0 for no address.
fn ip_number(ip: Option<Ip>) -> u128
    ensures { result ≡ ip_number ip }
{
    match ip {
        None => 0,
        Some(ip) => ip.number(),
    }
}

/// The order of the IP addresses that two keys have, or have not.
fn ip_cmp(one: &Key, other: &Key) -> Ordering
    ensures { result ≡ ip_cmp (ip_of one.now) (ip_of other.now) }
{
    ip_version(one.ip())
        .cmp(&ip_version(other.ip()))
        .then(ip_number(one.ip()).cmp(&ip_number(other.ip())))
}

/// The order of two updates of an old register.
fn old_cmp(one: &Update, other: &Update) -> Ordering
    ensures { result ≡ old_cmp one.now other.now }
{
    let (k, l) = (one.register().key, other.register().key);
    let (v, w) = (one.value(), other.value());
    v.incarnation
        .cmp(&w.incarnation)
        .then(v.counter.cmp(&w.counter))
        .then(rank(&v.content).cmp(&rank(&w.content)))
        .then(sequence(&v.content).cmp(&sequence(&w.content)))
        .then(ip_cmp(&k, &l))
        .then(label2(&v.content).cmp(&label2(&w.content)))
}

/// The newer of two updates of an old register.
fn newer(newest: &Update, update: &Update) -> Update
    ensures { result ≡ newer_old newest.now update.now }
{
    if old_cmp(newest, update).is_lt() {
        *update
    } else {
        *newest
    }
}

/// Advances past the updates of the old register that begins here, and past the first one of the
/// next. Returns the newest of them.
fn newest_along(first: &Update, ahead: &mut Updates<'_>) -> Update
    ensures newest { result ≡ newest_along first.now ahead.old }
    ensures ahead { ahead.new ≡ drop 1 (behind first.now ahead.old) }
{
    let mut newest = *first;
    while let Some(update) = ahead.next() {
        if !is_same_old(&newest.register(), &update.register()) {
            return newest;
        }
        newest = newer(&newest, &update);
    }
    newest
}

/// Returns the newest of an update's old register, given that of the update before: if the old
/// register changes, it advances past the new one.
fn entered(newest: &Update, update: &Update, ahead: &mut Updates<'_>) -> Update
    ensures same { is_same_old newest.now.register update.now.register ≡ true
        → (result ≡ newest.now) × (ahead.new ≡ ahead.old) }
    ensures other { is_same_old newest.now.register update.now.register ≡ false
        → (result ≡ newest_along update.now ahead.old)
        × (ahead.new ≡ drop 1 (behind update.now ahead.old)) }
{
    if is_same_old(&newest.register(), &update.register()) {
        *newest
    } else {
        newest_along(update, ahead)
    }
}

/// Returns the result for an update's register, given the newest update of its old register.
fn migrated_at(newest: &Update, update: &Update) -> Update
    ensures { result ≡ migrated_at newest.now update.now.register }
{
    newest.always_well_formed();
    update.always_well_formed();
    let register = update.register();
    if newest.register().cmp(&register).is_eq() {
        return *newest;
    }
    let Value {
        counter,
        incarnation,
        ..
    } = newest.value();
    Update::new(
        register,
        Value {
            counter,
            incarnation,
            content: Content::Withdrawn,
        },
    )
}

/// Writes the records of the migration of a table, in the order of a report. It takes no memory.
pub(crate) fn put_migrated<W: Out>(table: &Table, out: &mut W) -> Result<(), Device>
    ensures { Puts (W.end out.old) (W.end out.new) (records_of (migrated_of table.now)) result }
{
    let mut ahead = table.updates();
    let Some(first) = ahead.next() else {
        return Ok(());
    };
    let mut newest = newest_along(&first, &mut ahead);
    for update in table.updates() {
        newest = entered(&newest, &update, &mut ahead);
        out.put(write(&migrated_at(&newest, &update)).as_slice())?;
    }
    Ok(())
}

/// Returns `true` if the table is incomplete, so that nothing may be written.
fn is_withheld(ending: Ending, is_out_of_memory: bool) -> bool
    ensures { result ≡ (has_stopped ending || is_out_of_memory) }
{
    ending.has_stopped() || is_out_of_memory
}

/// Writes the records of the migration of a table, or nothing if they are withheld.
fn put_unless<W: Out>(is_withheld: bool, table: &Table, out: &mut W) -> Result<(), Device>
    ensures { Puts (W.end out.old) (W.end out.new)
        (if is_withheld then [] else records_of (migrated_of table.now)) result }
{
    if is_withheld {
        return Ok(());
    }
    put_migrated(table, out)
}

/// Reads update records of versions 1 and 2 up to the reader's end or the first fault (version 3 is
/// the fault 2), and writes records of version 3 for the accepted ones, in the order of a report.
/// In the earlier versions an originator's newest update of a MAC address replaced its updates of
/// any IP address of it: that update is written as it is, and each other IP address that some
/// update names is withdrawn with its incarnation and counter, so that no replaced address comes
/// back.
///
/// Notes and statuses are those of `report_run`. Nothing is written if a read failed, 2^40 reads
/// did not reach the end, or there was no memory for an update, since the table is incomplete then.
/// A fault or a cut record does not suppress the output. The input takes no memory.
pub fn migrate_run<R: In, W: Out, N: Out>(
    alloc: Global,
    originators: ArrayVec<Addr, 64>,
    reader: &mut R,
    out: &mut W,
    notes: &mut N,
) -> Status
    requires originators { AreOriginators originators.items }
    requires reader { Allows (2 ^ 40) (R.end reader.old) }
    requires out { IsOpen (W.end out.old) }
    requires notes { IsOpen (N.end notes.old) }
    ensures { Migrates originators.items
        (devices (R.end reader.old) (W.end out.old) (N.end notes.old))
        (devices (R.end reader.new) (W.end out.new) (N.end notes.new)) result }
{
    let feed = Feed::old();
    let mut intake = Intake::new(alloc, originators, feed);
    let ending = intake.take_input(reader, notes);
    let is_broken = intake.note_end(ending, notes);
    let is_out_of_memory = intake.is_out_of_memory();
    let is_withheld = is_withheld(ending, is_out_of_memory);
    let is_written = put_unless(is_withheld, intake.table(), out).is_ok();
    let has_failed = has_failed(ending, is_written, intake.is_told());
    status_of(has_failed, is_out_of_memory, is_broken)
}
