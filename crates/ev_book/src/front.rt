//! The name of a log, and the beginning of it that a thread has seen.
ghost use Rattle.std.specs.Prelude.{◌≡◌, ◌⊎◌};
ghost use mathlib.Core.List.{IsPrefix};
ghost use Rattle.ev_book.specs.Log.{IsHistory};

use crate::log_entry::LogEntry;
use crate::rule::History;
use logbook::Seen;
use std::marker::{Brand, Model, PhantomData};

/// The name of a log. Each run picks one.
pub trait Naming {
    ghost use Rattle.std.specs.Prelude.{Bool};
    ghost use Rattle.logbook.specs.Pages.{Book};

    ghost book: { Book };

    /// Whether updates of other processes come in.
    ghost outside: { Bool };
}

impl Naming for Brand {
    ghost use Rattle.std.specs.Prelude.{false};

    ghost book = { record { number = 0; log_name = 0; cells_name = 0 } };

    ghost outside = { false };
}

/// A beginning of the log that was seen. It has no bytes.
#[derive(Drop)]
pub struct Front<J: Naming> {
    pub(crate) seen: Seen<LogEntry, u64, History>,
    of: PhantomData<J>,
}

impl<J: Naming> Model for Front<J> {
    ghost use Rattle.std.specs.Prelude.{◌≡◌, List};
    ghost use Rattle.std.specs.Coded.{codes};
    ghost use Rattle.std.specs.FinMap.{code};
    ghost use Rattle.ev_book.specs.declared.log_entry.LogEntry.{LogEntry};
    ghost use Rattle.ev_book.specs.Log.{IsHistory};

    ghost Value = { List LogEntry };

    ghost coded = { Prim.hlevel (codes, code) };

    ghost view = { λ f. f.seen.log };

    ghost invariant = { λ f. (f.seen.book ≡ J.book) × IsHistory f.seen.log };
}

impl<J: Naming> Front<J> {
    /// Returns this beginning of the log.
    pub(crate) fn of(seen: Seen<LogEntry, u64, History>) -> Front<J>
        requires book { seen.book ≡ J.book }
        requires legal { IsHistory seen.log }
        ensures { result ≡ seen.log }
    {
        Front {
            seen,
            of: PhantomData,
        }
    }

    /// Returns a copy.
    pub fn again(&self) -> Front<J>
        ensures same { result ≡ self.now }
        ensures legal { IsHistory self.now }
    {
        Front {
            seen: self.seen.again(),
            of: PhantomData,
        }
    }

    /// Returns a beginning of the log that contains both.
    pub fn both(&self, other: &Front<J>) -> Front<J>
        ensures this { IsPrefix self.now result }
        ensures that { IsPrefix other.now result }
        ensures legal { IsHistory result }
        ensures legal_this { IsHistory self.now }
        ensures legal_that { IsHistory other.now }
    {
        let mut seen = self.seen.again();
        seen.learn(&other.seen);
        Front {
            seen,
            of: PhantomData,
        }
    }
}
