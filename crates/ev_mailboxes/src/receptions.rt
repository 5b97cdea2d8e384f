//! The changes of an edge's links that wait for the operator: each time that receiving over one
//! fails, and each time that it works again.
ghost use Rattle.std.specs.Prelude.{◌≡◌};
ghost use Rattle.ev_mailboxes.specs.Receptions.{no_receptions, has_place, after_reception, first_of, first_reception, after_first, untold, after_untold};

use arrayvec::ArrayVec;
use std::marker::Model;

/// The greatest number of waiting changes. A link that fails is tried again each second, so an edge
/// of two ports needs a minute to reach this number.
const MOST: usize = 128;

/// An input over which an edge receives.
#[derive(Clone, Copy, Debug, PartialEq, Eq)]
pub enum Input {
    /// The link of the access port with this number.
    Port(u8),
    /// The tunnel's link.
    Tunnel,
    /// The clock.
    Clock,
}

/// A change of an input: receiving works again, or has failed.
#[derive(Clone, Copy, Debug, PartialEq, Eq)]
pub struct Reception {
    /// The input.
    pub input: Input,
    /// Whether it works.
    pub works: bool,
}

impl Default for Reception {
    /// Returns the content of an unused place.
    fn default() -> Self {
        Reception {
            input: Input::Clock,
            works: true,
        }
    }
}

/// The changes that wait to be reported. They take no memory beyond their own.
#[derive(Drop)]
pub struct Receptions {
    /// The waiting changes, the first one first.
    waiting: ArrayVec<Reception, MOST>,
    /// The number of changes without a place.
    untold: u64,
}

impl Model for Receptions {
    ghost use Rattle.std.specs.Coded.{codes};
    ghost use Rattle.std.specs.FinMap.{code};
    ghost use Rattle.ev_mailboxes.specs.Receptions.{ReceptionsState, receptions_of};

    ghost Value = { ReceptionsState };

    ghost coded = { Prim.hlevel (codes, code) };

    ghost view = { λ r. receptions_of r.waiting.items r.untold };
}

/// Returns the first of these changes.
fn first_of(waiting: &[Reception]) -> Option<Reception>
    ensures { result ≡ first_of waiting.now }
{
    let first = waiting.first()?;
    Some(*first)
}

impl Receptions {
    /// Returns an empty list of changes.
    pub fn new() -> Self
        ensures { result ≡ no_receptions }
    {
        Receptions {
            waiting: ArrayVec::new(),
            untold: 0,
        }
    }

    /// Puts a change after the others, or counts it if there is no place. Returns `true` if there
    /// was a place.
    pub fn put(&mut self, reception: Reception) -> bool
        ensures put { result ≡ has_place self.old }
        ensures after { self.new ≡ after_reception reception self.old }
    {
        if self.waiting.len() >= MOST {
            self.untold = self.untold.saturating_add(1);
            return false;
        }
        self.waiting.push(reception);
        true
    }

    /// Takes the first waiting change.
    pub fn take(&mut self) -> Option<Reception>
        ensures first { result ≡ first_reception self.old }
        ensures rest { self.new ≡ after_first self.old }
    {
        let first = first_of(self.waiting.as_slice())?;
        let _ = self.waiting.remove(0);
        Some(first)
    }

    /// Takes the number of changes without a place, if there were any.
    pub fn take_untold(&mut self) -> Option<u64>
        ensures untold { result ≡ untold self.old }
        ensures rest { self.new ≡ after_untold self.old }
    {
        let count = self.untold;
        self.untold = 0;
        if count == 0 {
            return None;
        }
        Some(count)
    }
}
