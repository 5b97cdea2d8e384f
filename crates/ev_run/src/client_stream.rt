//! The octets that a client sends.
ghost use Rattle.std.specs.Prelude.{◌≡◌};

use std::io;
use std::io::{ErrorKind, Read};
use std::os::unix::net::UnixStream;

/// How often a read is repeated that a signal interrupts.
const TRIES: usize = 1000;

/// A client's connection, of which reads are repeated if a signal interrupts them. Linux interrupts
/// a read with a time limit if the process is stopped and continued (signal(7)), and std returns
/// that as an error.
#[derive(Clone, Copy, Debug)]
pub(crate) struct ClientStream<'x> {
    stream: &'x UnixStream,
}

impl<'x> ClientStream<'x> {
    /// Returns the reader of a client's connection.
    pub(crate) fn new(stream: &'x UnixStream) -> Self
        ensures { result.stream.now ≡ stream.now }
    {
        ClientStream { stream }
    }
}

impl Read for ClientStream<'_> {
    fn read(&mut self, buffer: &mut [u8]) -> io::Result<usize> {
        for _ in 0..TRIES {
            match self.stream.read(buffer) {
                Err(error) if error.kind() == ErrorKind::Interrupted => {}
                done => return done,
            }
        }
        self.stream.read(buffer)
    }
}
