//! Refused records of connections: each fault and each refusal is reported once.
ghost use Rattle.std.specs.Prelude.{◌≡◌};
ghost use Rattle.std.specs.List.{list_any};
ghost use Rattle.ev_mailboxes.specs.Records.{no_refusals, is_same, places, is_new, after_refusal, first_refusal, after_told};

use arrayvec::ArrayVec;
use ether_wire::Addr;
use std::marker::Model;

/// The number of places for refusals. With 64 peers, 64 edges and 256 numbers of records each
/// refusal but those of unlisted originators has one.
const MOST: usize = 512;

/// The number of refusals before which an unlisted originator is reported: any number of them may
/// come, and they leave places for the others.
const UNLISTED: usize = 64;

/// A refusal of records that another process sent.
#[derive(Clone, Copy, Debug, PartialEq, Eq)]
pub enum Refused {
    /// A record or the octets after the last record: a fault of the stream by its number (1 to 4),
    /// or the refusal of a record (5 and above).
    Record(u8),
    /// All records of this originator: the configuration names no peer with this address.
    Unlisted(Addr),
    /// Records of this peer: this process holds routes of an earlier life of the peer that aren't
    /// older.
    Outlived(Addr),
    /// Records of this edge of this process: another process holds routes of an earlier life of the
    /// edge that aren't older.
    OwnOutlived(Addr),
}

impl Default for Refused {
    /// Returns the content of an unused place.
    fn default() -> Self {
        Refused::Record(0)
    }
}

/// The refusals that came, reported or waiting. They take no memory beyond their own.
#[derive(Drop)]
pub struct Refusals {
    /// The refusals that came, the first one first, each once.
    came: ArrayVec<Refused, MOST>,
    /// The number of refusals that were taken.
    told: usize,
}

impl Model for Refusals {
    ghost use Rattle.std.specs.Prelude.{◌≤◌, length};
    ghost use Rattle.std.specs.Coded.{codes};
    ghost use Rattle.std.specs.FinMap.{code};
    ghost use Rattle.ev_mailboxes.specs.Records.{RefusalsState, refusals_of};

    ghost Value = { RefusalsState };

    ghost coded = { Prim.hlevel (codes, code) };

    ghost view = { λ r. refusals_of r.came.items r.told };

    ghost invariant = { λ r. r.told ≤ length r.came.items };
}

/// Returns `true` if two refusals are equal.
fn is_same(one: &Refused, other: &Refused) -> bool
    ensures { result ≡ is_same one.now other.now }
{
    match (one, other) {
        (Refused::Record(one), Refused::Record(other)) => one == other,
        (Refused::Unlisted(one), Refused::Unlisted(other)) => one.number() == other.number(),
        (Refused::Outlived(one), Refused::Outlived(other)) => one.number() == other.number(),
        (Refused::OwnOutlived(one), Refused::OwnOutlived(other)) => one.number() == other.number(),
        _ => false,
    }
}

/// Returns `true` if the refusal is among these.
fn is_known(refused: &Refused, all: &[Refused]) -> bool
    ensures { result ≡ list_any (is_same refused.now) all.now }
{
    for known in all {
        if is_same(refused, known) {
            return true;
        }
    }
    false
}

/// Returns the number of refusals before which this one is reported.
fn places(refused: &Refused) -> usize
    ensures { result ≡ places refused.now }
{
    match refused {
        Refused::Unlisted(_) => UNLISTED,
        Refused::Record(_) | Refused::Outlived(_) | Refused::OwnOutlived(_) => MOST,
    }
}

impl Refusals {
    /// Returns an empty list of refusals.
    pub fn new() -> Self
        ensures { result ≡ no_refusals }
    {
        Refusals {
            came: ArrayVec::new(),
            told: 0,
        }
    }

    /// Puts a refusal after the others. Returns `true` if it is new and has a place; only then it
    /// is reported.
    pub fn put(&mut self, refused: Refused) -> bool
        ensures put { result ≡ is_new refused self.old }
        ensures after { self.new ≡ after_refusal refused self.old }
    {
        if self.came.len() >= places(&refused) || is_known(&refused, self.came.as_slice()) {
            return false;
        }
        self.came.push(refused);
        true
    }

    /// Takes the first refusal that wasn't taken before.
    pub fn take(&mut self) -> Option<Refused>
        ensures first { result ≡ first_refusal self.old }
        ensures rest { self.new ≡ after_told self.old }
    {
        let refused = self.came.as_slice().get(self.told)?;
        self.told += 1;
        Some(*refused)
    }
}
