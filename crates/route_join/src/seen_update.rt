//! An update that only contracts see, in no octets.
ghost use Rattle.std.specs.Prelude.{◌≡◌};
ghost use Rattle.std.specs.Borrow.{ftrue};
ghost use Rattle.route_wire.specs.Fields.{Fields};

use route_wire::Update;
use std::marker::{Model, Send, Sync};

/// The fields of an update, as contracts see them. It takes no memory and owns nothing.
///
/// Only a struct of its own has a proof that its owner may go to another thread. Without it, the
/// start of a worker's thread would have to unfold each type around an entry, up to the book.
#[derive(Drop)]
pub(crate) struct SeenUpdate {
    pub ghost fields: { Fields },
}

impl Model for SeenUpdate {
    ghost also_owns = { λ _. ftrue };
}

// It owns nothing, whatever the update is.
unsafe impl Send for SeenUpdate {}

unsafe impl Sync for SeenUpdate {}

impl SeenUpdate {
    /// Returns what contracts see of an update.
    #[inline(always)]
    pub(crate) fn of(update: &Update) -> SeenUpdate
        ensures { result.fields ≡ update.now }
    {
        let _ = update;
        SeenUpdate {}
    }
}
