//! The rule of the history, and the steps of its words.

use crate::log_entry::{Deed, LogEntry};
use ev_edge::Edge;
use logbook::{Gain, Plain, Play, Rule};

/// The rule: the log is a history of edges that share a pool of announced updates.
pub(crate) struct History;

impl Rule<LogEntry, u64> for History {
    ghost use Rattle.std.specs.Prelude.{[]};
    ghost use base.Fml.{ftrue};
    ghost use Rattle.ev_book.specs.Inner.Rule.{IsKept};

    ghost holds = { λ cells log. IsKept cells log };

    ghost first = { [] };

    ghost hinted = { λ n log. Unit {0} };

    ghost shows = { λ log. [] };

    ghost keeps = { λ names log. ftrue };

    ghost moves = { λ ask before after answer. Unit {0} };
}

/// The callers trade nothing with the log.
pub(crate) struct Nothing;

impl Gain<LogEntry, u64> for Nothing {
    ghost use base.Fml.{ftrue};

    ghost after = { λ names about answer. ftrue };
}

/// A step that reads the number of an edge's entries.
pub(crate) struct Look;

impl Play<LogEntry, u64> for Look {
    ghost use Rattle.ev_book.specs.Inner.Rule.{Looks};

    ghost then = { Looks };
}

impl Plain<u64, LogEntry, u64> for Look {
    ghost use Rattle.std.specs.Prelude.{None, [], false};
    ghost use Rattle.ev_book.specs.declared.log_entry.LogEntry.TheVariants.{Begins};

    ghost ask = { λ x. Begins false [] };

    ghost state = { λ x. None };
}

/// The parts of an entry. The entry itself is not built: only proofs put it together.
#[derive(Drop)]
pub struct Adding<'a> {
    /// The edge's place, counted from 0.
    pub place: u64,
    /// The deed of the edge.
    pub deed: Deed,
    /// The edge afterwards.
    pub edge: &'a Edge,
}

/// A step that adds an entry.
pub(crate) struct Add;

impl Play<LogEntry, u64> for Add {
    ghost use Rattle.ev_book.specs.Inner.Rule.{Adds};

    ghost then = { Adds };
}

impl<'a> Plain<Adding<'a>, LogEntry, u64> for Add {
    ghost use Rattle.std.specs.Prelude.{None};
    ghost use Rattle.ev_book.specs.declared.log_entry.LogEntry.TheVariants.{Does};

    ghost ask = { λ x. Does x.place x.deed x.edge.now };

    ghost state = { λ x. None };
}
