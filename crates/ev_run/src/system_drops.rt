//! The number of datagrams that the system has dropped at a socket for lack of room. Linux reports
//! it in `/proc/net/udp`: a line of words for each socket.
//!
//! | word | holds | as |
//! |---|---|---|
//! | 2 | where the socket is bound | `0100007F:4E21` for 127.0.0.1:20001 |
//! | 13 | datagrams dropped there | decimal |
ghost use Rattle.std.specs.Prelude.{◌≡◌, ◌<◌, true, length, map, option_map, Option, List, ℕ, IfOk};
ghost use Rattle.std.specs.Fmt.{digit_glyph};
ghost use Rattle.std.specs.List.{filter, slice_get};
ghost use Rattle.ev_config.specs.declared.endpoint.Endpoint.{Endpoint};
ghost use Rattle.ev_run.specs.SystemDrops.{upper_pair, local_text, rows_of, words_of, names, count_of, row_drops, dropped_at};
ghost use Rattle.ev_run.specs.Inner.SystemDrops.{reports_drops, text_of_rows, row_report, greater, reported_at, IsShortened};

use ether_wire::read_decimal;
use ev_config::Endpoint;
use std::alloc::{AllocError, Global};
use std::fs::{File, Files};
use std::io;
use std::io::Read;

/// The most octets that are read: the rows of 131,072 sockets, at 128 octets each. This limit
/// bounds the memory that is taken at the end of a run.
const MOST: u64 = 1 << 24;

/// Returns the upper case hexadecimal digit of a number.
fn upper_digit(number: u8) -> u8
    requires { number < 16 }
    ensures { result ≡ digit_glyph true number }
{
    if number < 10 {
        b'0' + number
    } else {
        b'A' + (number - 10)
    }
}

/// Returns the two upper case hexadecimal digits of an octet.
fn upper_pair(octet: u8) -> [u8; 2]
    ensures { result ≡ upper_pair octet }
{
    [upper_digit(octet / 16), upper_digit(octet % 16)]
}

/// Returns a socket's address and port as the system writes them. The address is a number in the
/// byte order of this machine, whose lowest octet is the address's first.
fn local_text(at: Endpoint) -> [u8; 13]
    ensures { result ≡ local_text at }
{
    let [a, b, c, d] = at.address.octets();
    let [high, low] = at.port.to_be_bytes();
    let ([a, e], [b, f]) = (upper_pair(a), upper_pair(b));
    let ([c, g], [d, h]) = (upper_pair(c), upper_pair(d));
    let ([i, j], [k, l]) = (upper_pair(high), upper_pair(low));
    [d, h, c, g, b, f, a, e, b':', i, j, k, l]
}

/// Returns the word of a row at this place. The first word has place 0.
fn word_at(row: &[u8], place: usize) -> Option<&[u8]>
    ensures { option_map (λ word. word.now) result ≡ slice_get (words_of row.now) place }
{
    row.split(|octet| *octet == b' ')
        .filter(|word| !word.is_empty())
        .nth(place)
}

/// Returns `true` if a word is `local`.
pub(crate) fn names(local: &[u8], word: Option<&[u8]>) -> bool
    ensures { result ≡ names local.now (option_map (λ word. word.now) word.entry) }
{
    match word {
        Some(word) => word == local,
        None => false,
    }
}

/// Returns the number that a word spells, or 0 if it spells none.
pub(crate) fn count_of(word: Option<&[u8]>) -> u64
    ensures { result ≡ count_of (option_map (λ word. word.now) word.entry) }
{
    match word {
        Some(word) => read_decimal(word, u64::MAX).unwrap_or(0),
        None => 0,
    }
}

/// Returns the number of datagrams that a row reports as dropped at a socket.
fn row_drops(local: &[u8], row: &[u8]) -> u64
    ensures { result ≡ row_drops local.now row.now }
{
    if names(local, word_at(row, 1)) {
        count_of(word_at(row, 12))
    } else {
        0
    }
}

/// Returns the number of datagrams that this text of the system reports as dropped at a socket, or
/// 0 if the text has no number for that socket. If rows come and go while the text is read, it may
/// have a row twice; so the greatest number counts, not the sum.
pub(crate) fn dropped_at(text: &[u8], at: Endpoint) -> u64
    ensures { result ≡ dropped_at text.now at }
{
    let local = local_text(at);
    text.split(|octet| *octet == b'\n')
        .fold(0, |most: u64, row| most.max(row_drops(&local, row)))
}

/// Returns the number of datagrams that a row reports as dropped at a socket, or `None` if it isn't
/// a row of that socket.
fn row_report(local: &[u8], row: &[u8]) -> Option<u64>
    ensures { result ≡ row_report local.now row.now }
{
    if names(local, word_at(row, 1)) {
        Some(count_of(word_at(row, 12)))
    } else {
        None
    }
}

/// Returns the greater of two numbers, or the known one.
fn greater(one: Option<u64>, other: Option<u64>) -> Option<u64>
    ensures { result ≡ greater one other }
{
    match (one, other) {
        (Some(one), Some(other)) => Some(one.max(other)),
        (Some(one), None) => Some(one),
        (None, other) => other,
    }
}

/// Returns the number of datagrams that this text of the system reports as dropped at a socket, or
/// `None` if it has no row of that socket. If it has several rows, the greatest number counts.
pub(crate) fn reported_at(text: &[u8], at: Endpoint) -> Option<u64>
    ensures { result ≡ reported_at text.now at }
{
    let local = local_text(at);
    text.split(|octet| *octet == b'\n')
        .fold(None, |most: Option<u64>, row| {
            greater(most, row_report(&local, row))
        })
}

/// Returns `true` if a row reports dropped datagrams.
fn reports_drops(row: &[u8]) -> bool
    ensures { result ≡ reports_drops row.now }
{
    count_of(word_at(row, 12)) != 0
}

/// Returns the rows of a text that report dropped datagrams.
fn rows_with_drops(alloc: Global, text: &[u8]) -> Result<Vec<&[u8]>, AllocError>
    ensures { IfOk result
        (λ rows. map (λ row. row.now) rows.items ≡ filter reports_drops (rows_of text.now)) }
{
    text.split(|octet| *octet == b'\n')
        .filter(|row| reports_drops(row))
        .collect(alloc)
}

/// Returns the text of these rows, each with a line feed.
fn text_of_rows(alloc: Global, rows: &[&[u8]]) -> Result<Vec<u8>, AllocError>
    ensures { IfOk result (λ text. text.items ≡ text_of_rows (map (λ row. row.now) rows.now)) }
{
    let mut text = Vec::new(alloc);
    for row in rows {
        text.extend_from_slice(row)?;
        text.push(b'\n')?;
    }
    Ok(text)
}

/// Returns a text that reports the same drops, without the rows of sockets that dropped nothing.
/// Most sockets drop nothing, and `dropped_at` reads the text once for each socket of a run.
fn shortened(alloc: Global, text: &[u8]) -> Result<Vec<u8>, AllocError>
    ensures { IfOk result
        (λ short. (at : Endpoint) → dropped_at short.items at ≡ dropped_at text.now at) }
{
    let rows = rows_with_drops(alloc, text)?;
    text_of_rows(alloc, rows.as_slice())
}

/// Reads the system's table of UDP sockets, up to `MOST` octets.
fn read_table<R: Files>(rt: &R, alloc: Global) -> io::Result<Vec<u8>> {
    let mut file = File::open(rt, "/proc/net/udp")?.take(MOST);
    let mut table = Vec::new(alloc);
    file.read_to_end(&mut table)?;
    Ok(table)
}

/// The system's table of UDP sockets. A console reads it on a thread of its own. The kit's borrow
/// checker covers no such thread that rests on `Files`, which has types of its own.
pub trait UdpTable {
    /// The system gave this text of its table, or none.
    ghost shows: { Self → Option (List ℕ) → Type 0 };

    /// Returns the system's table of UDP sockets as it is now. Returns `None` if the table can't be
    /// read, if memory for it is refused, or if it is too long: its last row may be cut then, and
    /// its last number with it.
    fn udp_table(&self, alloc: Global) -> Option<Vec<u8>>
        ensures { shows self.now (option_map (λ text. text.items) result) };
}

impl<R: Files> UdpTable for R {
    ghost use Rattle.std.specs.Prelude.{⊤};

    ghost shows = { λ runtime text. ⊤ };

    fn udp_table(&self, alloc: Global) -> Option<Vec<u8>> {
        match read_table(self, alloc) {
            Ok(table) if (table.len() as u64) < MOST => Some(table),
            _ => None,
        }
    }
}

/// Returns the system's table of UDP sockets as it is now, without the rows of sockets that dropped
/// nothing. The result is empty if the table can't be read, or if memory is refused.
pub(crate) fn rows_of_drops<R: UdpTable>(rt: &R, alloc: Global) -> Vec<u8>
    ensures { (table : Option (List ℕ)) × R.shows rt.now table × IsShortened table result.items }
{
    match rt.udp_table(alloc) {
        Some(table) => match shortened(alloc, table.as_slice()) {
            Ok(short) => short,
            Err(_) => Vec::new(alloc),
        },
        None => Vec::new(alloc),
    }
}
