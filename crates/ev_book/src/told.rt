//! An update with the fact that it was announced, or came from another process into a history that
//! is open to them. The fact takes no memory.
ghost use Rattle.std.specs.Prelude.{◌≡◌, true};
ghost use Rattle.ev_book.specs.Log.{world, IsKnown};

use crate::front::{Front, Naming};
use route_wire::Update;
use std::marker::Model;

/// An update that an edge may take. Contracts see it as the update.
#[derive(Drop)]
pub struct Told<J: Naming> {
    update: Update,
    front: Front<J>,
}

impl<J: Naming> Model for Told<J> {
    ghost use Rattle.route_wire.specs.Fields.{Fields};
    ghost use Rattle.ev_book.specs.Log.{world, IsKnown};

    ghost Value = { Fields };

    ghost view = { λ t. t.update };

    ghost invariant = { λ t. IsKnown (world t.front).outside (world t.front).pool t.update };
}

impl<J: Naming> Told<J> {
    /// Returns an update that an edge may take in this history.
    pub fn new(update: Update, front: Front<J>) -> Self
        requires { IsKnown (world front).outside (world front).pool update }
        ensures { result ≡ update }
    {
        Told { update, front }
    }

    /// Returns the update.
    pub fn update(&self) -> &Update
        ensures { result.now ≡ self.now }
    {
        &self.update
    }

    /// Returns a history in which an edge may take it.
    pub fn front(&self) -> &Front<J>
        ensures { IsKnown (world result.now).outside (world result.now).pool self.now }
    {
        &self.front
    }

    /// Returns a copy.
    pub fn again(&self) -> Self
        ensures { result ≡ self.now }
    {
        Told {
            update: self.update,
            front: self.front.again(),
        }
    }
}
