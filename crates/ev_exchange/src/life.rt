//! The updates of one edge in its present life, and whether another process holds one that the edge
//! hasn't announced in this life. This shows that the edge was restarted in an incarnation that
//! isn't higher than before.
ghost use Rattle.std.specs.Prelude.{◌≡◌, IfOk, OnErr};
ghost use Rattle.std.specs.List.{list_any};
ghost use Rattle.route_join.specs.Table.{value_at, is_news};
ghost use Rattle.ev_exchange.specs.Life.{new_life, with_update, is_withdrawn, is_of_earlier, is_left_over, is_present, lacks};
ghost use Rattle.ev_exchange.specs.Sending.{is_own};

use arrayvec::ArrayVec;
use ether_wire::Addr;
use route_join::{Table, TakeError};
use route_wire::{Content, Update};
use std::alloc::Global;

/// The updates of an edge that were announced in its present life.
#[derive(Drop)]
pub struct Life {
    originator: Addr,
    /// The edge's incarnation: the highest of its updates.
    incarnation: u32,
    /// The newest update of each register.
    said: Table,
}

impl Life {
    /// Returns a life of the edge with this address, without updates. It takes no memory; `add`
    /// allocates from `alloc`.
    pub fn new(alloc: Global, originator: Addr) -> Self
        ensures { result ≡ new_life originator }
    {
        let mut originators = ArrayVec::new();
        originators.push(originator);
        Life {
            originator,
            incarnation: 0,
            said: Table::new(alloc, originators),
        }
    }

    /// Returns the address of the edge.
    pub fn originator(&self) -> Addr
        ensures { result ≡ self.now.originator }
    {
        self.originator
    }

    /// Adds an update that the edge has announced.
    ///
    /// # Errors
    ///
    /// `UnknownOriginator` exactly if it is an update of another edge. `NoMemory` if memory was
    /// refused. After an error the life is as before.
    pub fn add(&mut self, update: &Update) -> Result<(), TakeError>
        ensures added { IfOk result (λ done. self.new ≡ with_update self.old update.now) }
        ensures err { OnErr result (self.new ≡ self.old) }
    {
        self.said.take(update)?;
        self.incarnation = self.incarnation.max(update.value().incarnation);
        Ok(())
    }

    /// Returns `true` if the update is one of the edge, and of no earlier incarnation.
    fn is_present(&self, update: &Update) -> bool
        ensures { result ≡ is_present self.now update.now }
    {
        update.register().originator == self.originator
            && self.incarnation <= update.value().incarnation
    }

    /// Returns `true` if no update of the life is as new.
    fn is_news(&self, update: &Update) -> bool
        ensures { result ≡ is_news (value_at self.now.said update.now.register) update.now.value }
    {
        let register = update.register();
        match self.said.register(register.originator, register.key) {
            Some(said) => update.is_newer(&said),
            None => true,
        }
    }

    /// Returns `true` if the update is one of the edge's present life, or of a later one, and the
    /// edge has announced neither it nor a newer update of its register.
    pub fn lacks(&self, update: &Update) -> bool
        ensures { result ≡ lacks self.now update.now }
    {
        self.is_present(update) && self.is_news(update)
    }

    /// Returns `true` if the update is a withdrawal that the edge made in an earlier life.
    fn is_of_earlier(&self, update: &Update) -> bool
        ensures { result ≡ is_of_earlier self.now update.now }
    {
        update.register().originator == self.originator
            && update.value().incarnation < self.incarnation
            && is_withdrawn(update.value().content)
    }

    /// Returns `true` if the update is a withdrawal that the edge made in an earlier life, and no
    /// update of this life is as new.
    pub fn is_left_over(&self, update: &Update) -> bool
        ensures { result ≡ is_left_over self.now update.now }
    {
        self.is_of_earlier(update) && self.is_news(update)
    }

    /// Returns `true` if the life lacks one of these updates.
    pub fn lacks_any(&self, updates: &[Update]) -> bool
        ensures { result ≡ list_any (lacks self.now) updates.now }
    {
        for update in updates {
            if self.lacks(update) {
                return true;
            }
        }
        false
    }
}

/// Returns `true` if the content is that of a withdrawal.
fn is_withdrawn(content: Content) -> bool
    ensures { result ≡ is_withdrawn content }
{
    match content {
        Content::Withdrawn => true,
        Content::Advert(_) => false,
    }
}

/// Returns `true` if one of the updates is of this originator.
pub fn has_any_of(originator: Addr, updates: &[Update]) -> bool
    ensures { result ≡ list_any (is_own originator) updates.now }
{
    for update in updates {
        if update.register().originator == originator {
            return true;
        }
    }
    false
}
