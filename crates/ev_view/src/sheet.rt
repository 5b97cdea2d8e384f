//! A writer over memory that grows.
#![tactic(auto, using(ether_wire::proofs::Appending::with_text_twice, ether_wire::proofs::Appending::with_text_none))]

ghost use Rattle.std.specs.Prelude.{◌≡◌, [], Some};
ghost use Rattle.ether_wire.specs.Ends.{end_of};
ghost use Rattle.ev_view.specs.Inner.Sheet.{sheet_end};

use ether_wire::{Device, Out};
use std::alloc::Global;

/// A writer over memory that grows. It fails if memory is refused.
#[derive(Drop)]
pub(crate) struct Sheet {
    octets: Vec<u8>,
    failures: u64,
}

impl Sheet {
    /// Returns an empty sheet.
    pub(crate) fn new(alloc: Global) -> Self
        ensures { sheet_end result ≡ end_of (Some []) 0 }
    {
        Sheet {
            octets: Vec::new(alloc),
            failures: 0,
        }
    }

    /// Returns the octets written.
    pub(crate) fn into_octets(self) -> Vec<u8>
        ensures { (sheet_end self).octets ≡ Some result.items }
    {
        self.octets
    }
}

impl Out for Sheet {
    ghost use Rattle.ev_view.specs.Inner.Sheet.{sheet_end};

    ghost end = { sheet_end };

    fn failures(&self) -> u64 {
        self.failures
    }

    fn put(&mut self, octets: &[u8]) -> Result<(), Device> {
        match self.octets.extend_from_slice(octets) {
            Ok(()) => Ok(()),
            Err(_) => {
                self.failures = self.failures.saturating_add(1);
                Err(Device)
            }
        }
    }
}
