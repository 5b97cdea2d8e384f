//! The first line of a client, which names its request.

use crate::client_stream::ClientStream;
use arrayvec::ArrayVec;
use std::io;
use std::io::Read;
use std::os::unix::net::UnixStream;

/// The most octets of a client's first line that are read.
const OPENING: usize = 16;

/// A client's request, by its first line.
pub(crate) enum ClientRequest {
    /// A conversation, line after line.
    Console,
    /// An exchange of records.
    Records,
    /// Any other first line.
    Unknown,
    /// No first line: the client has gone, or has sent nothing for too long.
    Nothing,
}

/// Returns the next octet, or `None` at the end.
fn next_octet(stream: &UnixStream) -> io::Result<Option<u8>> {
    let mut octet = [0; 1];
    match ClientStream::new(stream).read(&mut octet)? {
        0 => Ok(None),
        _ => Ok(Some(octet[0])),
    }
}

/// Returns a client's first line without its line feed, cut off after `OPENING` octets. Returns
/// `None` if the connection ends before that, or a read fails or times out.
fn first_line(stream: &UnixStream) -> Option<ArrayVec<u8, OPENING>> {
    let mut line = ArrayVec::new();
    for _ in 0..OPENING {
        match next_octet(stream) {
            Ok(Some(b'\n')) => return Some(line),
            Ok(Some(octet)) => {
                let _ = line.try_push(octet);
            }
            _ => return None,
        }
    }
    Some(line)
}

/// Reads a client's first line, and returns its request.
pub(crate) fn wanted_by(stream: &UnixStream) -> ClientRequest {
    match first_line(stream) {
        Some(line) if line.as_slice() == b"console".as_slice() => ClientRequest::Console,
        Some(line) if line.as_slice() == b"records".as_slice() => ClientRequest::Records,
        Some(_) => ClientRequest::Unknown,
        None => ClientRequest::Nothing,
    }
}
