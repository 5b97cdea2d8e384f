//! The wait, after threads have ended, until the system no longer counts them. Linux reports the
//! number of a process's threads in `/proc/self/status`, in a row of two words:
//!
//! | word | holds | as |
//! |---|---|---|
//! | 1 | the name | `Threads:` |
//! | 2 | the threads of the process | decimal |
//!
//! When a thread has ended, Linux first counts one less for its user, which it compares with
//! `ulimit -u`, and then one less here (`release_task` in `kernel/exit.c`).
ghost use Rattle.std.specs.Prelude.{◌≡◌, ◌≤◌, length, option_map, IfOk};
ghost use Rattle.std.specs.List.{slice_get};
ghost use Rattle.ev_run.specs.Inner.Settling.{fields_of, row_threads, threads_in};

use crate::system_drops::{count_of, names};
use std::fs::{File, Files};
use std::io::Read;
use std::time::{Clock, Duration};
use std::{io, thread};

/// The most octets that are read. A status has some 1,500, and more only for a user of very many
/// groups.
const MOST: usize = 4096;

/// The milliseconds between two reads.
const PAUSE: u64 = 2;

/// The most reads: for 2 seconds, or longer on a busy machine.
const READS: u32 = 1000;

/// The milliseconds to wait if the number can't be read, or doesn't fall.
const SETTLING: u64 = 20;

/// Returns the word of a row at this place. The first word has place 0, and tabs separate words.
pub(crate) fn field_at(row: &[u8], place: usize) -> Option<&[u8]>
    ensures { option_map (λ word. word.now) result ≡ slice_get (fields_of row.now) place }
{
    row.split(|octet| *octet == b'\t').nth(place)
}

/// Returns the number of threads that a row reports, or 0 if it reports none.
fn row_threads(row: &[u8]) -> u64
    ensures { result ≡ row_threads row.now }
{
    if names(b"Threads:", field_at(row, 0)) {
        count_of(field_at(row, 1))
    } else {
        0
    }
}

/// Returns the number of threads that a status of a process reports, or 0 if it reports none.
pub(crate) fn threads_in(text: &[u8]) -> u64
    ensures { result ≡ threads_in text.now }
{
    text.split(|octet| *octet == b'\n')
        .fold(0, |most: u64, row| most.max(row_threads(row)))
}

/// Reads the status of this process to the front of the buffer, and returns its number of octets.
fn read_status<R: Files>(rt: &R, buffer: &mut [u8]) -> io::Result<usize>
    ensures { IfOk result (λ size. size ≤ length buffer.new) }
{
    let mut file = File::open(rt, "/proc/self/status")?;
    file.read(buffer)
}

/// Returns the number of threads of this process that the system counts, or 0 if it can't be read.
pub(crate) fn counted_threads<R: Files>(rt: &R) -> u64 {
    let mut buffer = [0u8; MOST];
    match read_status(rt, &mut buffer) {
        Ok(size) => threads_in(&buffer[..size]),
        Err(_) => 0,
    }
}

/// Waits until the system counts no more threads of this process than the `before` that it counted
/// then, for 2 seconds at most. If one of the numbers can't be read, waits for 20 milliseconds.
pub(crate) fn settle<R: Files + Clock>(rt: &R, before: u64) {
    for _read in 0..READS {
        let counted = counted_threads(rt);
        if before == 0 || counted == 0 {
            break;
        }
        if counted <= before {
            return;
        }
        thread::sleep(rt, Duration::from_millis(PAUSE));
    }
    thread::sleep(rt, Duration::from_millis(SETTLING));
}
