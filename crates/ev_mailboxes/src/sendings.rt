//! The changes of the links over which an edge sends that wait for the operator.
ghost use Rattle.std.specs.Prelude.{◌≡◌, ◌<◌};
ghost use Rattle.ev_mailboxes.specs.Sendings.{no_sendings, can_look, is_changed, after_look, first_sending, after_first, output_of};

use crate::receptions::Input;
use crate::send_watch::SendWatch;
use arrayvec::ArrayVec;
use std::marker::Model;

/// The greatest number of links of an edge: the tunnel's, and those of 64 ports.
pub const LINKS: usize = 65;

/// The greatest number of waiting changes.
const MOST: usize = 128;

/// A change of a link over which an edge sends: sends work again, or have failed for a second.
#[derive(Clone, Copy, Debug, PartialEq, Eq)]
pub struct Sending {
    /// The link, named as an input.
    pub output: Input,
    /// Whether it works.
    pub works: bool,
}

impl Default for Sending {
    /// Returns the content of an unused place.
    fn default() -> Self {
        Sending {
            output: Input::Tunnel,
            works: true,
        }
    }
}

/// The watches of an edge's links, the tunnel's first, and the changes that wait to be reported.
/// They take no memory beyond their own.
#[derive(Drop)]
pub struct Sendings {
    watches: [SendWatch; LINKS],
    /// The waiting changes, the first one first.
    waiting: ArrayVec<Sending, MOST>,
}

impl Model for Sendings {
    ghost use Rattle.std.specs.Coded.{codes};
    ghost use Rattle.std.specs.FinMap.{code};
    ghost use Rattle.ev_mailboxes.specs.Sendings.{SendingsState, sendings_of};

    ghost Value = { SendingsState };

    ghost coded = { Prim.hlevel (codes, code) };

    ghost view = { λ s. sendings_of s.watches s.waiting.items };
}

/// Returns the link at a place: the tunnel's, or that of the port with this number.
fn output_of(place: usize) -> Input
    requires { place < 65 }
    ensures { result ≡ output_of place }
{
    if place == 0 {
        Input::Tunnel
    } else {
        Input::Port(place as u8)
    }
}

/// Returns the first of these changes.
fn first_of(waiting: &[Sending]) -> Option<Sending>
    ensures { result ≡ first_sending waiting.now }
{
    let first = waiting.first()?;
    Some(*first)
}

impl Sendings {
    /// Returns the watches of links over which nothing was sent.
    pub fn new() -> Self
        ensures { result ≡ no_sendings }
    {
        Sendings {
            watches: [SendWatch::new(); LINKS],
            waiting: ArrayVec::new(),
        }
    }

    /// Notes a second of the link at a place, with the numbers of sends that have worked and failed
    /// so far. Returns `true` if a change waits to be reported since then. If 128 changes wait, it
    /// does nothing, so that the change is found in a later second.
    pub fn second(&mut self, place: usize, sent: u64, failed: u64) -> bool
        ensures put { result ≡ is_changed place sent failed self.old }
        ensures after { self.new ≡ after_look place sent failed self.old }
    {
        if place >= LINKS || self.waiting.len() >= MOST {
            return false;
        }
        let Some(works) = self.watches[place].second(sent, failed) else {
            return false;
        };
        self.waiting.push(Sending {
            output: output_of(place),
            works,
        });
        true
    }

    /// Takes the first waiting change.
    pub fn take(&mut self) -> Option<Sending>
        ensures first { result ≡ first_sending self.old.waiting }
        ensures rest { self.new ≡ after_first self.old }
    {
        let first = first_of(self.waiting.as_slice())?;
        let _ = self.waiting.remove(0);
        Some(first)
    }
}
