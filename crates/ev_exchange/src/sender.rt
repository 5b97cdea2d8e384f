//! Sends the updates of one process on a connection: those of its edges' tables when it begins, and
//! each update that they announce since, in order.
ghost use Rattle.std.specs.Prelude.{◌≡◌, ◌∷◌, [], true, false};
ghost use Rattle.ev_exchange.specs.Sending.{HasSent, HasSaid, own_of};

use ether_wire::{Addr, Flushing};
use route_wire::{Update, write};
use std::marker::Model;

/// Writes the records of updates on a connection. After a failed call it makes no further one.
#[derive(Drop)]
pub struct Sender<W: Flushing> {
    out: W,
    is_open: bool,
}

impl<W: Flushing> Model for Sender<W> {
    ghost use Rattle.std.specs.Prelude.{◌≡◌, true};
    ghost use Rattle.ev_exchange.specs.Sending.{Sending};

    ghost Value = { Sending };

    ghost view = { λ s. record {
      end = W.end s.out;
      is_open = s.is_open;
      held = W.held s.out;
    } };
}

impl<W: Flushing> Sender<W> {
    /// Returns a sender that has sent nothing.
    pub fn new(out: W) -> Self
        ensures { HasSent result (W.end out) [] }
    {
        Sender { out, is_open: true }
    }

    /// Sends an update: its record is written, or a call has failed.
    pub fn put(&mut self, update: &Update)
        ensures shut { self.old.is_open ≡ false → self.new ≡ self.old }
        ensures said { HasSaid self.old self.new (update.now ∷ []) }
    {
        let record = write(update);
        if self.is_open {
            self.is_open = self.out.put(record.as_slice()).is_ok();
        }
    }

    /// Sends an update if it is of one of this edge's own registers.
    fn put_own(&mut self, originator: Addr, update: &Update)
        ensures shut { self.old.is_open ≡ false → self.new ≡ self.old }
        ensures said { HasSaid self.old self.new (own_of originator (update.now ∷ [])) }
    {
        if update.register().originator == originator {
            self.put(update);
        }
    }

    /// Sends the updates that an edge originates: of the contents of its table each of its own
    /// registers, including withdrawn ones, in the given order. It allocates no memory.
    pub fn originate(&mut self, originator: Addr, updates: &[Update])
        ensures shut { self.old.is_open ≡ false → self.new ≡ self.old }
        ensures said { HasSaid self.old self.new (own_of originator updates.now) }
    {
        for update in updates {
            self.put_own(originator, update);
        }
    }

    /// Passes on the octets that the writer holds back, if any. Afterwards it holds none, or a call
    /// has failed.
    pub fn flush(&mut self)
        ensures shut { self.old.is_open ≡ false → self.new ≡ self.old }
        ensures said { HasSaid self.old self.new [] }
        ensures none_held { self.new.is_open ≡ true → self.new.held ≡ [] }
    {
        if self.is_open {
            self.is_open = self.out.flush_held().is_ok();
        }
    }

    /// Returns `true` if no call has failed.
    pub fn is_open(&self) -> bool
        ensures { result ≡ self.now.is_open }
    {
        self.is_open
    }

    /// Returns the writer.
    pub fn finish(self) -> W
        ensures { W.end result ≡ self.end }
    {
        let Sender { out, is_open: _ } = self;
        out
    }
}
