//! The originators that a connection knows.
ghost use Rattle.std.specs.Prelude.{◌≡◌, [], eqb};
ghost use Rattle.std.specs.List.{list_any};
ghost use Rattle.ev_exchange.specs.Known.{is_new, after_meeting};

use arrayvec::ArrayVec;
use ether_wire::Addr;
use std::marker::Model;

/// The maximum number of originators: a process has at most 64 edges.
const MOST: usize = 64;

/// At most 64 originators, each once, in the order in which they were added.
#[derive(Drop)]
pub struct Known {
    all: ArrayVec<Addr, MOST>,
}

impl Model for Known {
    ghost use Rattle.std.specs.Prelude.{ℕ, List};

    ghost Value = { List ℕ };

    ghost view = { λ k. k.all.items };
}

impl Known {
    /// Returns no originators.
    pub fn new() -> Self
        ensures { result ≡ [] }
    {
        Known {
            all: ArrayVec::new(),
        }
    }

    /// Returns these originators, each of which occurs once.
    pub fn of(originators: &ArrayVec<Addr, 64>) -> Self
        ensures { result ≡ originators.now.items }
    {
        let mut all = ArrayVec::new();
        let _fits = all.try_extend_from_slice(originators.as_slice());
        Known { all }
    }

    /// Returns `true` if the originator is one of these.
    pub fn has(&self, originator: Addr) -> bool
        ensures { result ≡ list_any (λ x. eqb x originator) self.now }
    {
        self.all.contains(&originator)
    }

    /// Returns the originators, in the order in which they were added.
    pub fn as_slice(&self) -> &[Addr]
        ensures { result.now ≡ self.now }
    {
        self.all.as_slice()
    }

    /// Adds an originator. Returns `true` if it was added, and `false` if it is one of these
    /// already or there are 64.
    pub fn meet(&mut self, originator: Addr) -> bool
        ensures new { result ≡ is_new self.old originator }
        ensures known { self.new ≡ after_meeting self.old originator }
    {
        if self.has(originator) || self.all.is_full() {
            return false;
        }
        self.all.push(originator);
        true
    }
}
