//! The datagrams that the system dropped at the sockets of edges, as a console shows them.
ghost use Rattle.std.specs.Prelude.{◌≡◌, ℕ, List, Option, IfOk};

use std::alloc::{AllocError, Global};

/// The system's counters at the sockets of running edges.
pub trait SystemDrops {
    /// The system reported these drops at the sockets of the edge with this number, from 1: first
    /// at the tunnel's, then at those of the ports. `None` stands for a socket that it didn't
    /// report.
    ghost reported: { Self → ℕ → List (Option ℕ) → Type 0 };

    /// Reads the system's counters, and returns the drops at each socket of the edge with this
    /// number.
    ///
    /// # Errors
    ///
    /// `AllocError` if memory is refused for the result.
    fn of_edge(&self, alloc: Global, edge: u64) -> Result<Vec<Option<u64>>, AllocError>
        ensures { IfOk result (λ drops. reported self.now edge drops.items) };
}

/// No counters: no socket is reported.
#[derive(Clone, Copy, Drop)]
pub struct NoDrops;

impl SystemDrops for NoDrops {
    ghost use Rattle.std.specs.Prelude.{◌≡◌, []};

    ghost reported = { λ system edge drops. drops ≡ [] };

    fn of_edge(&self, alloc: Global, _edge: u64) -> Result<Vec<Option<u64>>, AllocError> {
        Ok(Vec::new(alloc))
    }
}
