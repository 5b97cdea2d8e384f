//! An input that is read whole, before anything is done with it.
ghost use Rattle.std.specs.Prelude.{◌≡◌, ◌+◌, ◌^◌, Result, Ok, Err, ℕ, List};
ghost use Rattle.ether_wire.specs.Ends.{Allows};
ghost use Rattle.ev_report.specs.Input.{ReadsWhole, input_of};

use ether_wire::{Device, In};
use std::alloc::Global;

/// An input is read with at most this many reads. One that hasn't ended by then counts as one whose
/// reading failed.
pub const MOST_READS: u64 = 0x100_0000_0000;

/// The number of octets of a read.
pub(crate) const PIECE: usize = 16_384;

/// Why an input wasn't read to its end.
#[derive(Clone, Copy, Debug, PartialEq, Eq)]
pub enum ReadError {
    /// A read failed, or 2^40 reads didn't reach the end.
    Device,
    /// There was no memory for it.
    NoMemory,
}

/// All octets of a reader, up to its end.
///
/// # Errors
///
/// `Device` if a read failed, or 2^40 reads did not reach the end; `NoMemory` if there was no
/// memory for the input. No read is made after either.
pub fn read_whole<R: In>(alloc: Global, reader: &mut R) -> Result<Vec<u8>, ReadError>
    requires { Allows (2 ^ 40) (R.end reader.old) }
    ensures { ReadsWhole (R.end reader.old) (R.end reader.new) (input_of result) }
{
    let mut buffer = [0; PIECE];
    let mut input = Vec::new(alloc);
    for turn in 0..MOST_READS {
        match reader.read(&mut buffer) {
            Ok(0) => return Ok(input),
            Ok(n) => {
                if input.extend_from_slice(&buffer[..n]).is_err() {
                    return Err(ReadError::NoMemory);
                }
            }
            Err(Device) => return Err(ReadError::Device),
        }
    }
    Err(ReadError::Device)
}
