//! Ends over memory and over readers and writers of std, with and without failures.
use crate::{Device, In, Octets, Out, Page, Reader, Writer};
use std::io;
use std::io::{Read, Write};

/// A reader that returns octets until its call `fails_at`, which fails once.
#[derive(Drop)]
struct Failing {
    calls: u8,
    fails_at: u8,
}

impl Failing {
    fn is_due(&mut self) -> bool {
        let due = self.calls == self.fails_at;
        self.calls = self.calls.saturating_add(1);
        due
    }
}

impl Read for Failing {
    fn read(&mut self, buffer: &mut [u8]) -> io::Result<usize> {
        if self.is_due() {
            return Err(io::Error::from(io::ErrorKind::Other));
        }
        Ok(buffer.len().min(1))
    }
}

impl Write for Failing {
    fn write(&mut self, octets: &[u8]) -> io::Result<usize> {
        if self.is_due() {
            return Err(io::Error::from(io::ErrorKind::Other));
        }
        Ok(octets.len())
    }

    fn flush(&mut self) -> io::Result<()> {
        Ok(())
    }
}

#[test]
fn slice_is_read_to_its_end(rt: HostRuntime) {
    let mut reader = Octets::new(b"abcde");
    let mut buffer = [0; 3];
    assert_eq!(rt; reader.read(&mut buffer), Ok(3));
    assert_eq!(rt; buffer, *b"abc");
    assert_eq!(rt; reader.read(&mut buffer), Ok(2));
    assert_eq!(rt; buffer, *b"dec");
    assert_eq!(rt; reader.read(&mut buffer), Ok(0));
    assert_eq!(rt; reader.failures(), 0);
}

#[test]
fn page_with_too_little_room_fails(rt: HostRuntime) {
    let mut page: Page<4> = Page::new();
    assert_eq!(rt; page.put(b"abc"), Ok(()));
    assert_eq!(rt; page.put(b"de"), Err(Device));
    assert_eq!(rt; page.failures(), 1);
    assert_eq!(rt; page.octets(), b"abc".as_slice());
    assert_eq!(rt; page.put(b"d"), Ok(()));
    assert_eq!(rt; page.octets(), b"abcd".as_slice());
}

#[test]
fn reader_counts_the_errors_of_the_inner_one(rt: HostRuntime) {
    let mut reader = Reader::new(Failing {
        calls: 0,
        fails_at: 1,
    });
    let mut buffer = [0; 3];
    assert_eq!(rt; reader.read(&mut buffer), Ok(1));
    assert_eq!(rt; reader.failures(), 0);
    assert_eq!(rt; reader.read(&mut buffer), Err(Device));
    assert_eq!(rt; reader.failures(), 1);
    assert_eq!(rt; reader.read(&mut buffer), Ok(1));
    assert_eq!(rt; reader.failures(), 1);
}

#[test]
fn writer_counts_the_errors_of_the_inner_one(rt: HostRuntime) {
    let mut writer = Writer::new(Failing {
        calls: 0,
        fails_at: 1,
    });
    assert_eq!(rt; writer.put(b"ab"), Ok(()));
    assert_eq!(rt; writer.put(b"cd"), Err(Device));
    assert_eq!(rt; writer.failures(), 1);
    assert_eq!(rt; writer.put(b"ef"), Ok(()));
    assert_eq!(rt; writer.failures(), 1);
}

#[test]
fn reader_and_writer_pass_octets_on(rt: HostRuntime) {
    let mut reader = Reader::new(b"abcde".as_slice());
    let mut buffer = [0; 3];
    assert_eq!(rt; reader.read(&mut buffer), Ok(3));
    assert_eq!(rt; buffer, *b"abc");
    let mut room = [0; 4];
    let mut writer = Writer::new(room.as_mut_slice());
    assert_eq!(rt; writer.put(b"abc"), Ok(()));
    assert_eq!(rt; writer.put(b"de"), Err(Device));
}
