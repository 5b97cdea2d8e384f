//! The pages of a table's report: a reader that takes page after page holds few updates at a time,
//! and a table that is shared is locked for one page only.
ghost use Rattle.std.specs.Prelude.{◌≡◌, IfOk, take};
ghost use Rattle.route_join.specs.After.{updates_from, page_at, page_len, is_last, is_same_place, last_from, IsPage};
ghost use Rattle.route_join.specs.Updates.{all_updates};

use crate::register_key::RegisterKey;
use crate::table::Table;
use crate::updates::Updates;
use route_wire::{Register, Update};
use std::alloc::{AllocError, Global};
use std::marker::Model;

/// The most updates of a page.
const PAGE: usize = 256;

/// Updates in the order of a report that follow one after the other in a table: at most 256, each
/// after the register at which the page before ended.
#[derive(Drop)]
pub struct UpdatePage {
    after: Option<Register>,
    updates: Vec<Update>,
}

impl Model for UpdatePage {
    ghost use Rattle.route_join.specs.After.{PageView, IsPage};

    ghost Value = { PageView };

    ghost view = { λ p. record { after = p.after; updates = p.updates.items } };

    ghost invariant = { λ p. IsPage p.after p.updates.items };
}

impl UpdatePage {
    /// Returns the register after which the page begins, `None` for the first page.
    pub fn after(&self) -> Option<Register>
        ensures { result ≡ self.now.after }
    {
        self.after
    }

    /// Returns `true` if the page begins after this register, or is the first page and there is
    /// none.
    pub fn begins_after(&self, after: &Option<Register>) -> bool
        ensures { result ≡ is_same_place self.now.after after.now }
    {
        match (&self.after, after) {
            (None, None) => true,
            (Some(own), Some(other)) => {
                RegisterKey::new(*own)
                    .cmp(&RegisterKey::new(*other))
                    .is_eq()
            }
            _ => false,
        }
    }

    /// Returns the updates, in the order of a report.
    pub fn updates(&self) -> &[Update]
        ensures { result.now ≡ self.now.updates }
    {
        &self.updates
    }

    /// Returns `true` if the table had no more updates: there are fewer than 256.
    pub fn is_last(&self) -> bool
        ensures last { result ≡ is_last self.now.updates }
        ensures page { IsPage self.now.after self.now.updates }
    {
        self.updates.len() < PAGE
    }

    /// Returns the register after which the next page begins: that of the last update, or if there
    /// is none, the one after which this page begins.
    pub fn end(&self) -> Option<Register>
        ensures { result ≡ last_from self.now.after self.now.updates }
    {
        match self.updates.last() {
            None => self.after,
            Some(last) => Some(last.register()),
        }
    }
}

/// Returns the first updates, as many as a page has room for.
fn first_of(alloc: Global, updates: Updates<'_>) -> Result<Vec<Update>, AllocError>
    ensures { IfOk result (λ first. first.items ≡ take page_len updates.entry) }
{
    let mut first = Vec::with_capacity(alloc, PAGE)?;
    for update in updates {
        if first.len() == PAGE {
            return Ok(first);
        }
        first.push_reserved(update);
    }
    Ok(first)
}

impl Table {
    /// Returns the updates of all registers, or of those after this one.
    fn updates_from(&self, after: &Option<Register>) -> Updates<'_>
        ensures { result ≡ updates_from after.now (all_updates self.now) }
    {
        match after {
            None => self.updates(),
            Some(register) => self.updates_after(register),
        }
    }

    /// Returns the page of the table's report after this register, or the first page: the updates
    /// of the next 256 registers, or of those that are left. The cost doesn't depend on the number
    /// of registers before the page.
    ///
    /// # Errors
    ///
    /// `AllocError` if memory for 256 updates is refused.
    pub fn page(&self, alloc: Global, after: Option<Register>) -> Result<UpdatePage, AllocError>
        ensures { IfOk result (λ page. page
            ≡ record { after = after; updates = page_at after self.now }) }
    {
        let updates = first_of(alloc, self.updates_from(&after))?;
        Ok(UpdatePage { after, updates })
    }
}
