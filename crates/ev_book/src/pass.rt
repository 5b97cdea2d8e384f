//! Passes: the right to call a book, and the book's record of each.
ghost use Rattle.std.specs.Prelude.{◌≡◌, ◌+◌, ◌<◌, ◌≤◌, length, replicate, vec_len, IfOk};
ghost use Rattle.ev_book.specs.Book.{unused};
ghost use Rattle.ev_book.specs.Opening.{opened_pass};
ghost use Rattle.ev_book.specs.Closing.{counts_of, count_in};
ghost use Rattle.ev_book.specs.Inner.Closing.{calls_of};

use crate::mark::Mark;
use arrayvec::ArrayVec;
use std::alloc::{AllocError, Global};
use std::marker::Model;
use std::sync::ledger::{Ledger, Share};

/// How many passes a book has at most.
pub(crate) const MOST: usize = 256;

/// A book's record of a pass.
#[derive(Clone, Copy, Debug, PartialEq, Eq)]
pub struct Kept {
    /// How many calls of it were counted.
    pub count: u64,
    /// The last update that they took or announced.
    pub mark: Option<Mark>,
}

/// The right to enter a book, with the count of its calls and its mark. Its share of the book's
/// ledger is that count, so nothing else can stand in for it.
#[derive(Drop)]
pub struct Pass<L: Ledger> {
    pub(crate) number: usize,
    pub(crate) count: u64,
    pub(crate) mark: Option<Mark>,
    pub(crate) share: Share<L>,
}

impl<L: Ledger> Model for Pass<L> {
    ghost use Rattle.std.specs.Prelude.{◌≡◌, ◌≤◌, ◌^◌};
    ghost use Rattle.ev_book.specs.Book.{PassState};

    ghost Value = { PassState };

    ghost view = { λ p. record { number = p.number; count = p.count; mark = p.mark } };

    ghost invariant = { λ p. (p.share.parts ≡ 1) × (p.share.amount ≡ p.count)
        × (p.count ≤ 2 ^ 55) };
}

impl<L: Ledger> Pass<L> {
    /// The pass's number, from 0.
    pub fn number(&self) -> usize
        ensures { result ≡ self.now.number }
    {
        self.number
    }

    /// How many of its calls were counted.
    pub fn count(&self) -> u64
        ensures { result ≡ self.now.count }
    {
        self.count
    }

    /// The last update that its calls took or announced.
    pub fn mark(&self) -> Option<Mark>
        ensures { result ≡ self.now.mark }
    {
        self.mark
    }

    /// A pass that has called nothing.
    pub(crate) fn new(number: usize, share: Share<L>) -> Self
        requires { (share.parts ≡ 1) × (share.amount ≡ 0) }
        ensures { result ≡ opened_pass number }
    {
        Pass {
            number,
            count: 0,
            mark: None,
            share,
        }
    }
}

/// So many equal values.
fn repeated<T: Copy>(alloc: Global, value: T, count: usize) -> Result<Vec<T>, AllocError>
    ensures { IfOk result (λ values. values.items ≡ replicate count value) }
{
    let mut values = Vec::with_capacity(alloc, count)?;
    for place in 0..count {
        let _ = place;
        values.push(value)?;
    }
    Ok(values)
}

/// Returns the records of this number of passes that have made no call.
pub(crate) fn unused(alloc: Global, passes: usize) -> Result<Vec<Kept>, AllocError>
    ensures { IfOk result (λ kept. kept.items ≡ replicate passes unused) }
{
    let unused = Kept {
        count: 0,
        mark: None,
    };
    repeated(alloc, unused, passes)
}

/// The shares of all passes in one.
pub(crate) fn merged<L: Ledger>(passes: Vec<Pass<L>>) -> Share<L>
    requires { 0 < vec_len passes }
    ensures parts { result.parts ≡ vec_len passes }
    ensures amount { result.amount ≡ calls_of passes.items }
{
    let mut passes = passes;
    let Some(first) = passes.pop() else {
        unreachable!()
    };
    let Pass {
        number: _,
        count: _,
        mark: _,
        share: mut all,
    } = first;
    while let Some(pass) = passes.pop() {
        let Pass {
            number: _,
            count: _,
            mark: _,
            share,
        } = pass;
        all.merge(share);
    }
    all
}

/// How many calls of a pass were counted.
#[derive(Clone, Copy, Debug, Default, PartialEq, Eq)]
pub struct Counted {
    /// The pass's number.
    pub number: usize,
    /// How many of its calls were counted.
    pub count: u64,
}

/// How many calls of each pass were counted, in the order in which the passes were given back.
pub(crate) fn own_counts<L: Ledger>(passes: &[Pass<L>]) -> ArrayVec<Counted, MOST>
    requires { length passes.now ≤ 256 }
    ensures { result.items ≡ counts_of passes.now }
{
    let mut counts = ArrayVec::new();
    for pass in passes {
        counts.push(Counted {
            number: pass.number,
            count: pass.count,
        });
    }
    counts
}

/// How many calls of each pass were counted, by its number.
#[derive(Drop)]
pub struct Totals {
    pub(crate) counts: ArrayVec<Counted, MOST>,
}

impl Model for Totals {
    ghost use Rattle.std.specs.Prelude.{List};
    ghost use Rattle.ev_book.specs.declared.pass.Counted.{Counted};

    ghost Value = { List Counted };

    ghost view = { λ t. t.counts.items };
}

impl Totals {
    /// Returns the number of counted calls of the pass with this number, if there was such a pass.
    pub fn of(&self, number: usize) -> Option<u64>
        ensures { result ≡ count_in self.now number }
    {
        let counts = self.counts.as_slice();
        for counted in counts {
            if counted.number == number {
                return Some(counted.count);
            }
        }
        None
    }
}
