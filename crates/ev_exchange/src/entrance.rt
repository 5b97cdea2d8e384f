//! The destination of the records that come over a connection.
ghost use Rattle.std.specs.Prelude.{◌≡◌, ◌∷◌, [], Ok, Err};
ghost use Rattle.ev_links.specs.Coming.{behind};
ghost use Rattle.ev_exchange.specs.Receiving.{Given};

use route_wire::Update;

/// The destination of the records of a connection.
pub trait Entrance {
    /// The trace of the updates and kinds of refusals that it was given, in order; `None` if it
    /// keeps no trace.
    ghost given: { Self → Given };

    /// Enters an update that came, once.
    fn enter(&mut self, update: &Update)
        ensures { given self.new ≡ behind (given self.old) (Ok update.now ∷ []) };

    /// Reports that a refused record came, the first with this refusal.
    fn tell(&mut self, refusal: u8)
        ensures { given self.new ≡ behind (given self.old) (Err refusal ∷ []) };
}
