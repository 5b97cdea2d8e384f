//! Worked journals.
ghost use Rattle.std.specs.Prelude.{◌≡◌};

use super::{addr, config, hears, host, journal, report, said, take, vni};
use crate::{Book, Pass};
use ether_wire::{Out, Page, Vni};
use route_join::Taken;
use route_wire::{Content, Key, Update, Whole, read_one, whole_of};
use std::alloc::{AllocError, Global};
use std::marker::Brand;
use std::sync::ledger::{Blank, Ledger};
use std::test::Fail;

/// The flood list of network 5001 at 10.0.0.2, its first update.
const FLOOD: [u8; 44] = [
    0x45, 0x56, 0x03, 0x01, 0x00, 0x26, 0x0a, 0x00, 0x00, 0x02, 0x00, 0x00, 0x00, 0x00, 0x00, 0x00,
    0x00, 0x00, 0x00, 0x00, 0x00, 0x01, 0x00, 0x13, 0x89, 0x03, 0x11, 0x00, 0x01, 0x0a, 0x00, 0x00,
    0x02, 0x00, 0x01, 0x00, 0x00, 0x00, 0x00, 0x20, 0x0a, 0x00, 0x00, 0x02,
];

/// The host at 10.0.0.1 with counter 1 and sequence number 1.
const FIRST: [u8; 68] = [
    0x45, 0x56, 0x03, 0x01, 0x00, 0x3e, 0x0a, 0x00, 0x00, 0x01, 0x00, 0x00, 0x00, 0x00, 0x00, 0x00,
    0x00, 0x00, 0x00, 0x00, 0x00, 0x01, 0x00, 0x13, 0x89, 0x02, 0x21, 0x00, 0x01, 0x0a, 0x00, 0x00,
    0x01, 0x00, 0x01, 0x00, 0x00, 0x00, 0x00, 0x00, 0x00, 0x00, 0x00, 0x00, 0x00, 0x00, 0x00, 0x00,
    0x00, 0x30, 0x02, 0x00, 0x00, 0x00, 0x00, 0x0a, 0x00, 0x00, 0x13, 0x89, 0x06, 0x00, 0x00, 0x00,
    0x00, 0x00, 0x00, 0x01,
];

/// The same with counter 2 and sequence number 3.
const SECOND: [u8; 68] = [
    0x45, 0x56, 0x03, 0x01, 0x00, 0x3e, 0x0a, 0x00, 0x00, 0x01, 0x00, 0x00, 0x00, 0x00, 0x00, 0x00,
    0x00, 0x00, 0x00, 0x00, 0x00, 0x02, 0x00, 0x13, 0x89, 0x02, 0x21, 0x00, 0x01, 0x0a, 0x00, 0x00,
    0x01, 0x00, 0x01, 0x00, 0x00, 0x00, 0x00, 0x00, 0x00, 0x00, 0x00, 0x00, 0x00, 0x00, 0x00, 0x00,
    0x00, 0x30, 0x02, 0x00, 0x00, 0x00, 0x00, 0x0a, 0x00, 0x00, 0x13, 0x89, 0x06, 0x00, 0x00, 0x00,
    0x00, 0x00, 0x00, 0x03,
];

const REPORT: &[u8] =
    b"flood 5001 10.0.0.2 1 up\nmac 5001 02:00:00:00:00:0a 10.0.0.1 2 dynamic 3\nowner 5001 02:00:00:00:00:0a 10.0.0.1\n";

/// The host in two networks after a thousand updates.
const REFRESHED: &[u8] =
    b"flood 5001 10.0.0.2 1 up\nmac 5001 02:00:00:00:00:0a 10.0.0.1 999 dynamic 0\nowner 5001 02:00:00:00:00:0a 10.0.0.1\nmac 5002 02:00:00:00:00:0a 10.0.0.1 1000 dynamic 0\nowner 5002 02:00:00:00:00:0a 10.0.0.1\n";

// Whether the octets are the flood list and then the first, the second and again the first record.
fn are_four(octets: &[u8]) -> bool {
    let Some(rest) = octets.strip_prefix(&FLOOD) else {
        return false;
    };
    let Some(rest) = rest.strip_prefix(&FIRST) else {
        return false;
    };
    let Some(rest) = rest.strip_prefix(&SECOND) else {
        return false;
    };
    rest == FIRST.as_slice()
}

// Whether the octets are the flood list and then the second record.
fn are_two(octets: &[u8]) -> bool {
    let Some(rest) = octets.strip_prefix(&FLOOD) else {
        return false;
    };
    rest == SECOND.as_slice()
}

// Whether the updates of the three records are taken, the last of which is known.
fn takes_three<L: Ledger>(book: &mut Book<L>, pass: &mut Pass<L>) -> bool {
    let first = said(1, vni(), 1, 1);
    let second = said(1, vni(), 2, 3);
    take(book, pass, first) == Some(Taken::Newer)
        && take(book, pass, second) == Some(Taken::Newer)
        && take(book, pass, first) == Some(Taken::Known)
}

// Whether the journal has four records and then two, with the same report.
fn works<L: Ledger>(alloc: Global, blank: Blank) -> Result<bool, AllocError>
    requires name { blank.name ≡ L.name }
    requires parts { (blank.parts ≡ L.parts) × (blank.parts ≡ 1) }
{
    let (mut book, mut passes) = Book::<L>::open(alloc, blank, config(0), 1)?;
    let Some(mut pass) = passes.pop() else {
        return Ok(false);
    };
    if !takes_three(&mut book, &mut pass) || !are_four(journal(&book).octets()) {
        return Ok(false);
    }
    let is_reported = report(&book).octets() == REPORT;
    book.compact();
    Ok(is_reported && are_two(journal(&book).octets()) && report(&book).octets() == REPORT)
}

#[test]
fn compact_leaves_two_of_four_records(rt: HostRuntime) -> Result<(), Fail> {
    assert!(rt; works::<Brand>(rt.alloc(), Blank::new(1))?);
    Ok(())
}

// How many octets the journal's records are, if they are no more than 8,192.
fn journal_octets<L: Ledger>(book: &Book<L>) -> Option<usize> {
    let mut page = Page::<8192>::new();
    if page.failures() == 0 && book.write_journal(&mut page).is_ok() {
        return Some(page.octets().len());
    }
    None
}

// Whether two registers take a thousand updates, and the journal has never more than two of each of
// three registers, 64, and that of the call.
fn stays_short<L: Ledger>(alloc: Global, blank: Blank) -> Result<bool, AllocError>
    requires name { blank.name ≡ L.name }
    requires parts { (blank.parts ≡ L.parts) × (blank.parts ≡ 1) }
{
    let most = FLOOD.len() + (2 * 3 + 64 + 1 - 1) * FIRST.len();
    let (mut book, mut passes) = Book::<L>::open(alloc, blank, config(0), 1)?;
    let Some(mut pass) = passes.pop() else {
        return Ok(false);
    };
    for n in 0..1000u32 {
        let update = said(1, Vni::new(5001 + n % 2), u64::from(n) + 1, 0);
        let is_newer = take(&mut book, &mut pass, update) == Some(Taken::Newer);
        let is_short = journal_octets(&book).is_some_and(|octets| octets <= most);
        if !is_newer || !is_short {
            return Ok(false);
        }
    }
    Ok(report(&book).octets() == REFRESHED)
}

#[test]
fn journal_stays_short_while_few_stations_are_refreshed(rt: HostRuntime) -> Result<(), Fail> {
    assert!(rt; stays_short::<Brand>(rt.alloc(), Blank::new(1))?);
    Ok(())
}

// The journal of an edge's first incarnation, in which it learns the host.
fn first_incarnation<L: Ledger>(
    alloc: Global,
    blank: Blank,
) -> Result<Option<Page<2048>>, AllocError>
    requires name { blank.name ≡ L.name }
    requires parts { (blank.parts ≡ L.parts) × (blank.parts ≡ 1) }
{
    let (mut book, mut passes) = Book::<L>::open(alloc, blank, config(0), 1)?;
    let Some(mut pass) = passes.pop() else {
        return Ok(None);
    };
    if !hears(&mut book, &mut pass) || !advertises_host(&book) {
        return Ok(None);
    }
    Ok(Some(journal(&book)))
}

// Whether the update advertises a MAC address of 10.0.0.2.
fn is_own_advert(update: &Update) -> bool {
    update.register().originator == addr(2)
        && matches!(update.register().key, Key::Mac(_, _, _))
        && matches!(update.value().content, Content::Advert(_))
}

fn advertises_host<L: Ledger>(book: &Book<L>) -> bool {
    match book
        .edge()
        .table()
        .register(addr(2), Key::Mac(vni(), host(), None))
    {
        Some(update) => is_own_advert(&update),
        None => false,
    }
}

fn has_own_advert<L: Ledger>(book: &Book<L>) -> bool {
    for update in book.edge().table().updates() {
        if is_own_advert(&update) {
            return true;
        }
    }
    false
}

// Returns `true` if the stream has this number of records, and each is taken.
fn takes_all<L: Ledger>(
    book: &mut Book<L>,
    pass: &mut Pass<L>,
    stream: &[u8],
    count: usize,
) -> bool {
    let mut rest = stream;
    for _ in 0..count {
        let Whole::Length(len) = whole_of(rest) else {
            return false;
        };
        let (record, others) = rest.split_at(len);
        match read_one(record) {
            Ok(update) => {
                if take(book, pass, update).is_none() {
                    return false;
                }
            }
            Err(_) => return false,
        }
        rest = others;
    }
    rest.is_empty()
}

// Whether a second incarnation takes the journal of the first, and withdraws the host.
fn second_incarnation<L: Ledger>(
    alloc: Global,
    blank: Blank,
    stream: &[u8],
) -> Result<bool, AllocError>
    requires name { blank.name ≡ L.name }
    requires parts { (blank.parts ≡ L.parts) × (blank.parts ≡ 1) }
{
    let (mut book, mut passes) = Book::<L>::open(alloc, blank, config(1), 1)?;
    let Some(mut pass) = passes.pop() else {
        return Ok(false);
    };
    if !takes_all(&mut book, &mut pass, stream, 2) || has_own_advert(&book) {
        return Ok(false);
    }
    let key = Key::Mac(vni(), host(), None);
    let Some(own) = book.edge().table().register(addr(2), key) else {
        return Ok(false);
    };
    Ok(own.value().incarnation == 1 && own.value().content == Content::Withdrawn)
}

#[test]
fn later_incarnation_withdraws_what_the_journal_has(rt: HostRuntime) -> Result<(), Fail> {
    let older = first_incarnation::<Brand>(rt.alloc(), Blank::new(1))?;
    let older = older.ok_or("no journal")?;
    assert!(rt; second_incarnation::<Brand>(rt.alloc(), Blank::new(1), older.octets())?);
    Ok(())
}
