//! The rows of UDP sockets in the system's table, as Linux writes them in `udp4_format_sock` of
//! `net/ipv4/udp.c`, and the threads in the status of a process, as Linux writes it in
//! `proc_pid_status` of `fs/proc/array.c`, and descriptors, as it writes them in `seq_show` of
//! `fs/proc/fd.c` and, for a device, in `tun_chr_show_fdinfo` of `drivers/net/tun.c`.
use crate::settling::{counted_threads, threads_in};
use crate::system_drops::{dropped_at, reported_at};
use crate::taps::{AttachError, device_of, others_of, tap_named};
use ether_wire::Addr;
use ev_config::Endpoint;
use ev_links::{DeviceName, Tap};
use std::alloc::AllocError;
use std::fs::File;
use std::io::Error;
use std::test::Fail;

/// Four sockets: 127.0.0.1:20001, which has dropped 2,100,345, then 127.0.0.2:20001,
/// 127.0.0.1:20002 and 0.0.0.0:4789.
const TABLE: &[u8] =
    b"   sl  local_address rem_address   st tx_queue rx_queue tr tm->when retrnsmt   uid  timeout inode ref pointer drops            \n\
  633: 0100007F:4E21 00000000:0000 07 00000000:00033C00 00:00000000 00000000     0        0 21374 2 000000001d2c8f3a 2100345      \n\
10633: 0200007F:4E21 00000000:0000 07 00000000:00000000 00:00000000 00000000  1000        0 21375 2 0000000000000000 7            \n\
  634: 0100007F:4E22 00000000:0000 07 00000000:00000000 00:00000000 00000000  1000        0 21376 2 0000000000000000 0            \n\
  357: 00000000:12B5 00000000:0000 07 00000000:00000000 00:00000000 00000000     0        0 21377 2 0000000000000000 4294967295   \n";

/// The endpoint 127.0.0.LAST:PORT.
fn host(last: u32, port: u16) -> Endpoint {
    Endpoint {
        address: Addr::new(0x7f00_0000 + last % 256),
        port,
    }
}

/// How many the text says were dropped at 127.0.0.LAST:PORT.
fn at_host(text: &[u8], last: u32, port: u16) -> u64 {
    dropped_at(text, host(last, port))
}

#[test]
fn row_is_found_by_address_and_port(rt: HostRuntime) {
    assert!(rt; at_host(TABLE, 1, 20001) == 2_100_345);
    assert!(rt; at_host(TABLE, 2, 20001) == 7);
    assert!(rt; at_host(TABLE, 1, 20002) == 0);
    let tunnel = Endpoint {
        address: Addr::new(0),
        port: 4789,
    };
    assert!(rt; dropped_at(TABLE, tunnel) == 4_294_967_295);
}

#[test]
fn socket_without_a_row_has_lost_nothing(rt: HostRuntime) {
    assert!(rt; at_host(TABLE, 3, 20001) == 0);
    assert!(rt; at_host(TABLE, 1, 4789) == 0);
    assert!(rt; at_host(b"", 1, 20001) == 0);
}

// A console shows 0 of the one, and no number of the other.
#[test]
fn socket_that_dropped_nothing_differs_from_one_without_a_row(rt: HostRuntime) {
    assert!(rt; reported_at(TABLE, host(1, 20001)) == Some(2_100_345));
    assert!(rt; reported_at(TABLE, host(1, 20002)) == Some(0));
    assert!(rt; reported_at(TABLE, host(3, 20001)).is_none());
    assert!(rt; reported_at(b"", host(1, 20001)).is_none());
    let twice =
        b"1: 0100007F:0001 2 3 4 5 6 7 8 9 10 11 0\n1: 0100007F:0001 2 3 4 5 6 7 8 9 10 11 9\n";
    assert!(rt; reported_at(twice, host(1, 1)) == Some(9));
}

// The kernel may print a row twice, if other sockets come and go meanwhile.
#[test]
fn greatest_number_counts(rt: HostRuntime) {
    let twice =
        b"1: 0100007F:0001 2 3 4 5 6 7 8 9 10 11 12\n1: 0100007F:0001 2 3 4 5 6 7 8 9 10 11 9\n";
    assert!(rt; at_host(twice, 1, 1) == 12);
}

#[test]
fn row_that_cannot_be_read_counts_nothing(rt: HostRuntime) {
    assert!(rt; at_host(b"1: 0100007F:0001 2 3 4 5 6 7 8 9 10 11", 1, 1) == 0);
    assert!(rt; at_host(b"1: 0100007F:0001 2 3 4 5 6 7 8 9 10 11 many", 1, 1) == 0);
    assert!(rt; at_host(b"1: 0100007f:0001 2 3 4 5 6 7 8 9 10 11 12", 1, 1) == 0);
    assert!(rt; at_host(b"0100007F:0001 1 2 3 4 5 6 7 8 9 10 11 12", 1, 1) == 0);
}

// A number takes 64 bits. The row's last word may be at the very end.
#[test]
fn greatest_count(rt: HostRuntime) {
    let row = b"1: 0100007F:0001 2 3 4 5 6 7 8 9 10 11 18446744073709551615";
    assert!(rt; at_host(row, 1, 1) == 18_446_744_073_709_551_615);
    let beyond = b"1: 0100007F:0001 2 3 4 5 6 7 8 9 10 11 18446744073709551616";
    assert!(rt; at_host(beyond, 1, 1) == 0);
}

/// The status of a process, without most of its rows.
const STATUS: &[u8] =
    b"Name:\tThreads: 9\nUmask:\t0022\nState:\tS (sleeping)\nPid:\t4711\nGroups:\t0 4 24 \nThreads:\t17\nSigQ:\t0/95321\n";

#[test]
fn threads_are_those_of_the_row(rt: HostRuntime) {
    assert!(rt; threads_in(STATUS) == 17);
    assert!(rt; threads_in(b"Threads:\t1") == 1);
}

#[test]
fn status_without_the_row_has_no_threads(rt: HostRuntime) {
    assert!(rt; threads_in(b"") == 0);
    assert!(rt; threads_in(b"Name:\tThreads:\t9\nPid:\t4711\n") == 0);
    assert!(rt; threads_in(b"Threads:\n") == 0);
    assert!(rt; threads_in(b"Threads:\tmany\nThreads: 5\nThreads\t5\n") == 0);
}

// This thread counts, so the number is at least 1 if the system reports it.
#[test]
fn system_counts_this_thread(rt: HostRuntime) {
    let is_linux = std::fs::metadata(&rt, "/proc/self/status").is_ok();
    assert!(rt; (counted_threads(&rt) > 0) == is_linux);
}

/// Returns the name of a device.
fn named(text: &[u8]) -> Result<DeviceName, &'static str> {
    DeviceName::read_text(text).ok_or("no name")
}

#[test]
fn device_of_a_descriptor(rt: HostRuntime) -> Result<(), Fail> {
    let tap = b"pos:\t0\nflags:\t02104002\nmnt_id:\t24\nino:\t109\niff:\ttap0\n";
    assert!(rt; device_of(tap) == Some(named(b"tap0")?));
    let file = b"pos:\t5\nflags:\t0100000\nmnt_id:\t31\nino:\t7\n";
    assert!(rt; device_of(file).is_none());
    assert!(rt; device_of(b"").is_none());
    // a descriptor of /dev/net/tun that has no device
    assert!(rt; device_of(b"iff:\t\n").is_none());
    assert!(rt; device_of(b"iff:\ta-name-of-16-oct\n").is_none());
    Ok(())
}

/// Returns what an error at a descriptor says of the devices that weren't found.
fn others_by(error: &Error) -> Result<Option<AttachError>, AllocError> {
    others_of(error.kind(), error.raw_os_error())
}

// A descriptor that isn't open has no file in `/proc/self/fdinfo`.
#[test]
fn closed_descriptor_is_of_no_device(rt: HostRuntime) -> Result<(), Fail> {
    let opened = File::open(&rt, "/proc/self/fdinfo/-1");
    let missing = opened.err().ok_or("a descriptor")?;
    assert!(rt; others_by(&missing) == Ok(None));
    Ok(())
}

// The numbers are ENOMEM, EMFILE, ENFILE and EACCES of `asm-generic/errno-base.h`.
#[test]
fn unread_descriptor_may_be_the_device(rt: HostRuntime) {
    assert!(rt; others_by(&Error::from_raw_os_error(12)) == Err(AllocError));
    assert!(rt; others_by(&Error::from(AllocError)) == Err(AllocError));
    let full = others_by(&Error::from_raw_os_error(24));
    assert!(rt; full == Ok(Some(AttachError::NoDescriptor)));
    let system = others_by(&Error::from_raw_os_error(23));
    assert!(rt; system == Ok(Some(AttachError::Unreported)));
    let denied = others_by(&Error::from_raw_os_error(13));
    assert!(rt; denied == Ok(Some(AttachError::Unreported)));
}

#[test]
fn device_is_found_by_its_name(rt: HostRuntime) -> Result<(), Fail> {
    let (first, second) = (named(b"tap0")?, named(b"tap1")?);
    let taps = [Tap::new(7, first), Tap::new(9, second), Tap::new(8, second)];
    assert!(rt; tap_named(&taps, first) == Some(Tap::new(7, first)));
    assert!(rt; tap_named(&taps, second) == Some(Tap::new(9, second)));
    assert!(rt; tap_named(&taps, named(b"tap")?).is_none());
    assert!(rt; tap_named(&[], first).is_none());
    Ok(())
}
