//! Marks: the last update of a pass, as the book and the pass know it.
ghost use Rattle.std.specs.Prelude.{◌≡◌};
ghost use Rattle.ev_book.specs.Mark.{mark_of, is_same, same_mark};

use route_wire::{Register, Update, Value};

/// The last update that the calls of a pass took or announced.
#[derive(Clone, Copy, Debug, PartialEq, Eq)]
pub struct Mark {
    /// The update's register.
    pub register: Register,
    /// Its value.
    pub value: Value,
}

/// The mark of an update.
pub(crate) fn mark_of(update: &Update) -> Mark
    ensures { result ≡ mark_of update.now }
{
    Mark {
        register: update.register(),
        value: update.value(),
    }
}

/// Of two different values of a register one is newer.
fn is_same(a: &Mark, b: &Mark) -> bool
    ensures { result ≡ is_same a.now b.now }
{
    let differ = a.value.is_newer(&b.value) || b.value.is_newer(&a.value);
    a.register.cmp(&b.register).is_eq() && !differ
}

/// Whether there are two equal marks, or none.
pub(crate) fn same_mark(a: &Option<Mark>, b: &Option<Mark>) -> bool
    ensures { result ≡ same_mark a.now b.now }
{
    match (a, b) {
        (Some(a), Some(b)) => is_same(a, b),
        (None, None) => true,
        _ => false,
    }
}
