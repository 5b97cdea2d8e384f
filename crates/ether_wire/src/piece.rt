//! Octets at the front of an array, to which more are put in place.
#![tactic(auto, using(crate::proofs::Appending::with_text_twice, crate::proofs::Appending::with_text_none, crate::proofs::Appending::part_behind))]

ghost use Rattle.std.specs.Prelude.{◌≡◌, ◌++◌, ◌+◌, ◌==◌, ◌≤◌, nat_le, [], length, take, true, false};

use crate::text::word_at;
use std::marker::Model;

/// At most N octets, one after the other. It takes no memory.
#[derive(Drop)]
pub struct Piece<const N: usize> {
    octets: [u8; N],
    len: usize,
}

impl<const N: usize> Model for Piece<N> {
    ghost use Rattle.std.specs.Prelude.{ℕ, List, take, ◌≤◌};

    ghost Value = { List ℕ };

    ghost view = { λ p. take p.len p.octets };

    ghost invariant = { λ p. p.len ≤ N };
}

impl<const N: usize> Piece<N> {
    /// Returns a piece without octets.
    pub fn new() -> Self
        ensures { result ≡ [] }
    {
        Piece {
            octets: [0; N],
            len: 0,
        }
    }

    /// Returns the octets.
    pub fn octets(&self) -> &[u8]
        ensures { result.now ≡ self.now }
    {
        &self.octets[..self.len]
    }

    /// Returns `true` if there are no octets.
    pub fn is_empty(&self) -> bool
        ensures { result ≡ (length self.now == 0) }
    {
        self.len == 0
    }

    /// Removes all octets.
    pub fn clear(&mut self)
        ensures { self.new ≡ [] }
    {
        self.len = 0;
    }

    /// Puts octets after the others, or returns `false` if there is no room for all of them.
    #[inline(always)]
    pub fn try_put(&mut self, octets: &[u8]) -> bool
        ensures put { result ≡ true → self.new ≡ self.old ++ octets.now }
        ensures full { result ≡ false → self.new ≡ self.old }
        ensures fits { result ≡ nat_le (length self.old + length octets.now) N }
    {
        let len = self.len;
        let more = octets.len();
        if more > N - len {
            return false;
        }
        let all = &mut self.octets[..];
        all[len..len + more].copy_from_slice(octets);
        self.len = len + more;
        true
    }

    /// Returns the first `len` octets of an array.
    pub fn of(octets: [u8; N], len: usize) -> Self
        requires { len ≤ N }
        ensures { result ≡ take len octets.entry }
    {
        Piece { octets, len }
    }

    /// Writes the octets into a line from a place on, and returns the place after them. It copies
    /// the whole array, because its length is known at compile time.
    #[inline(always)]
    pub fn write_at(&self, line: &mut [u8], at: usize) -> usize
        requires { at + N ≤ length line.old }
        ensures text { take result line.new ≡ take at line.old ++ self.now }
        ensures end { result ≤ at + N }
        ensures len { length line.new ≡ length line.old }
    {
        let all = &self.octets[..];
        let _ = word_at(line, at, all);
        at + self.len
    }
}
