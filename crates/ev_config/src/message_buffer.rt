//! A part of a message, in memory of a fixed size.
ghost use Rattle.std.specs.Prelude.{◌≡◌};

use arrayvec::ArrayVec;
use ether_wire::{Page, put_decimal};

/// A part of a message. A piece that doesn't fit is left out.
#[derive(Drop)]
pub(crate) struct MessageBuffer {
    octets: ArrayVec<u8, 1024>,
}

impl MessageBuffer {
    /// Returns an empty line.
    pub(crate) fn new() -> Self {
        MessageBuffer {
            octets: ArrayVec::new(),
        }
    }

    /// Returns the octets that were written.
    pub(crate) fn octets(&self) -> &[u8]
        ensures { result.now ≡ self.now.octets.items }
    {
        self.octets.as_slice()
    }

    /// Writes a piece, if it fits.
    pub(crate) fn put(&mut self, octets: &[u8]) {
        let _fits = self.octets.try_extend_from_slice(octets);
    }

    /// Writes a number in decimal.
    pub(crate) fn put_number(&mut self, number: u64) {
        let mut page = Page::<20>::new();
        let _fits = put_decimal(&mut page, number);
        self.put(page.octets());
    }

    /// Writes the first 100 characters of a text, with a question mark for each that could control
    /// a terminal.
    pub(crate) fn put_shown(&mut self, text: &str) {
        for c in text.chars().take(100) {
            let mut room = [0; 4];
            if c.is_control() {
                self.put(b"?");
            } else {
                self.put(c.encode_utf8(&mut room).as_bytes());
            }
        }
    }
}
