//! A reader that remembers the first octet that it returned.
ghost use Rattle.std.specs.Prelude.{◌≡◌, None};
ghost use Rattle.ether_wire.specs.Ends.{Allows, Gets};
ghost use Rattle.evpnd.specs.Inner.Seen.{first_of};

use ether_wire::{Device, In};

/// Returns the first of some octets.
fn first_of(octets: &[u8]) -> Option<u8>
    ensures { result ≡ first_of octets.now }
{
    match octets {
        [] => None,
        [first, ..] => Some(*first),
    }
}

/// A reader over another one, with the first octet that a read of it returned.
#[derive(Drop)]
pub(crate) struct Seen<R> {
    reader: R,
    first: Option<u8>,
}

impl<R: In> Seen<R> {
    ghost use Rattle.evpnd.specs.Inner.Seen.{first_seen, seen_end};

    /// Returns a reader that has returned no octet yet.
    pub(crate) fn new(reader: R) -> Self
        ensures end { seen_end R.end result ≡ R.end reader }
        ensures first { first_seen result ≡ None }
    {
        Seen {
            reader,
            first: None,
        }
    }

    /// Returns the first octet that a read returned, if one did.
    pub(crate) fn first(&self) -> Option<u8>
        ensures { result ≡ first_seen self.now }
    {
        self.first
    }

    /// Returns the other reader.
    pub(crate) fn into_inner(self) -> R
        ensures { R.end result ≡ seen_end R.end self }
    {
        let Seen { reader, first: _ } = self;
        reader
    }
}

impl<R: In> In for Seen<R> {
    ghost use Rattle.evpnd.specs.Inner.Seen.{first_seen, first_after, seen_end};

    ghost end = { seen_end R.end };

    fn failures(&self) -> u64 {
        self.reader.failures()
    }

    fn read(&mut self, buffer: &mut [u8]) -> Result<usize, Device>
        requires { Allows 1 (seen_end R.end self.old) }
        ensures gets { Gets (seen_end R.end self.old) (seen_end R.end self.new) buffer.new result }
        ensures first { first_seen self.new
            ≡ first_after (first_seen self.old) buffer.new result }
    {
        let n = self.reader.read(buffer)?;
        match self.first {
            Some(_) => {}
            None => self.first = first_of(&buffer[..n]),
        }
        Ok(n)
    }
}
