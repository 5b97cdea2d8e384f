//! Reads a connection up to its end.
ghost use Rattle.std.specs.Prelude.{◌≡◌, ◌^◌};
ghost use Rattle.ether_wire.specs.Ends.{Allows};
ghost use Rattle.ev_exchange.specs.Receiving.{Receives, fault_by};

use crate::entrance::Entrance;
use crate::receiver::Receiver;
use crate::stream_end::StreamEnd;
use ether_wire::{Device, In};
use ev_report::{Ending, MOST_READS};

/// The maximum number of octets per read.
const PIECE: usize = 4_096;

/// The result of reading a connection.
#[derive(Drop)]
pub struct Incoming {
    /// The receiver, which has counted the refused records.
    pub receiver: Receiver,
    /// How the stream that came ends.
    pub end: StreamEnd,
    /// How the reading ended.
    pub ending: Ending,
}

/// Returns the fault that the end of a stream shows.
fn fault_by(end: StreamEnd) -> Option<u8>
    ensures { result ≡ fault_by end }
{
    match end {
        StreamEnd::Faulty(fault) => Some(fault),
        StreamEnd::Whole | StreamEnd::Cut(_) => None,
    }
}

/// Returns the result of a reading that ended this way.
fn came(receiver: Receiver, end: StreamEnd, ending: Ending) -> Incoming
    ensures { (result.receiver ≡ receiver) × (result.end ≡ end) × (result.ending ≡ ending) }
{
    Incoming {
        receiver,
        end,
        ending,
    }
}

/// Takes the records of a reader as they come, up to the reader's end, a failed read or the first
/// fault of the octets, or for 2^40 reads. Each update whose record is whole is entered, once and
/// in order. Refused records are counted, and the first of each kind is reported. After a fault it
/// makes no read.
pub fn receive<E: Entrance, R: In>(into: &mut E, reader: &mut R) -> Incoming
    requires { Allows (2 ^ 40) (R.end reader.old) }
    ensures { Receives (R.end reader.old) (R.end reader.new) (E.given into.old) (E.given into.new)
        result.receiver.counts result.end result.ending }
{
    let mut buffer = [0; PIECE];
    let mut receiver = Receiver::new();
    let mut end = receiver.end();
    for turn in 0..MOST_READS {
        let _ = turn;
        match reader.read(&mut buffer) {
            Ok(0) => return came(receiver, end, Ending::Ended),
            Ok(n) => receiver.take(&buffer[..n], into),
            Err(Device) => return came(receiver, end, Ending::Failed),
        }
        end = receiver.end();
        if let Some(fault) = fault_by(end) {
            return came(receiver, end, Ending::Faulty(fault));
        }
    }
    came(receiver, end, Ending::Unended)
}
