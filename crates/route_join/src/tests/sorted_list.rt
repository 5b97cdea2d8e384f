//! A table as one list of updates in the order of their registers, in which owners are found by a
//! walk: the reference for a table of groups.
ghost use Rattle.std.specs.Prelude.{◌≤◌, length};

use crate::Table;
use crate::names::Names;
use crate::owner::advert_in;
use crate::report::{LINE, put_owner, put_update, subject_text};
use crate::subject::{Subject, subject_of};
use arrayvec::ArrayVec;
use ether_wire::{Addr, Mac, Out, Page, Vni};
use route_wire::{Advert, Content, Key, Register, Update};
use std::alloc::{AllocError, Global};

#[derive(Drop)]
pub(crate) struct Plain {
    updates: Vec<Update>,
}

/// Returns the number of updates before a register.
fn before(updates: &[Update], register: &Register) -> usize
    ensures { result ≤ length updates.now }
{
    for (i, update) in updates.iter().enumerate() {
        if update.register() >= *register {
            return i;
        }
    }
    updates.len()
}

/// Returns `true` if a key is of an address.
fn is_of(key: &Key, vni: Vni, mac: Mac) -> bool {
    match key {
        Key::Flood(_) => false,
        Key::Mac(v, m, _) => *v == vni && *m == mac,
    }
}

/// Returns the advert of an update, if it is about the address.
fn said(update: &Update, vni: Vni, mac: Mac) -> Option<Advert> {
    if is_of(&update.register().key, vni, mac) {
        advert_in(&update.value().content)
    } else {
        None
    }
}

/// Returns `true` if an advert comes before the best one of the registers before it.
fn beats(advert: &Advert, best: &Option<(Addr, Advert)>) -> bool {
    match best {
        None => true,
        Some((_, other)) => {
            advert.is_static && !other.is_static
                || advert.is_static == other.is_static && advert.sequence > other.sequence
        }
    }
}

impl Plain {
    pub(crate) fn new(alloc: Global) -> Self {
        Plain {
            updates: Vec::new(alloc),
        }
    }

    /// Takes an update, and returns `true` if it is news.
    fn take(&mut self, update: &Update) -> Result<bool, AllocError> {
        let register = update.register();
        let at = before(&self.updates, &register);
        if let Some(known) = self.updates.get_mut(at) {
            if known.register() == register {
                let is_newer = update.is_newer(known);
                if is_newer {
                    *known = *update;
                }
                return Ok(is_newer);
            }
        }
        self.updates.insert(at, *update)?;
        Ok(true)
    }

    /// Takes an update as `take` does, and retries once if memory was refused.
    pub(crate) fn surely_take(&mut self, update: &Update) -> Result<bool, AllocError> {
        match self.take(update) {
            Ok(is_news) => Ok(is_news),
            Err(_) => self.take(update),
        }
    }

    /// Returns the owner of an address. Of equal adverts the one of the first register is the
    /// better one.
    fn owner(&self, vni: Vni, mac: Mac) -> Option<Addr> {
        let mut best = None;
        for update in &self.updates {
            if let Some(advert) = said(update, vni, mac) {
                if beats(&advert, &best) {
                    best = Some((update.register().originator, advert));
                }
            }
        }
        best.map(|(originator, _)| originator)
    }

    fn flood(&self, vni: Vni) -> ArrayVec<Addr, 64> {
        let mut flood = ArrayVec::new();
        for update in &self.updates {
            if update.register().key == Key::Flood(vni)
                && update.value().content != Content::Withdrawn
            {
                let _ = flood.try_push(update.register().originator);
            }
        }
        flood
    }

    /// Returns `true` if no register of the address is after this place.
    fn ends_at(&self, at: usize, vni: Vni, mac: Mac) -> bool {
        for update in self.updates.iter().skip(at).skip(1) {
            if is_of(&update.register().key, vni, mac) {
                return false;
            }
        }
        true
    }

    /// Writes the owner of an address, if the update at this place is the last one of the address.
    fn put_after(&self, page: &mut Page<16384>, at: usize, key: &Key) {
        let Key::Mac(vni, mac, _) = key else {
            return;
        };
        let (vni, mac) = (*vni, *mac);
        if page.failures() == 0 && self.ends_at(at, vni, mac) {
            let _ = put_owner(
                page,
                &mut [0; LINE],
                &mut Names::new(),
                &subject_text(&Subject::address(vni, mac)),
                self.owner(vni, mac),
            );
        }
    }

    fn report(&self) -> Page<16384> {
        let mut page = Page::new();
        for (at, update) in self.updates.iter().enumerate() {
            if page.failures() == 0
                && put_update(
                    &mut page,
                    &mut [0; LINE],
                    &mut Names::new(),
                    &subject_text(&subject_of(&update.register().key)),
                    update,
                )
                .is_ok()
            {
                self.put_after(&mut page, at, &update.register().key);
            }
        }
        page
    }

    /// Returns `true` if a table has the same owner of the address, or the same flood list.
    fn agrees_at(&self, table: &Table, key: &Key) -> bool {
        match key {
            Key::Flood(vni) => table.flood(*vni).as_slice() == self.flood(*vni).as_slice(),
            Key::Mac(vni, mac, _) => table.owner(*vni, *mac) == self.owner(*vni, *mac),
        }
    }

    /// Returns `true` if a table has the same registers, owners, flood lists and report.
    pub(crate) fn agrees_with(&self, table: &Table) -> bool {
        for update in &self.updates {
            let Register { originator, key } = update.register();
            if !self.agrees_at(table, &key) || table.register(originator, key) != Some(*update) {
                return false;
            }
        }
        let mut page = Page::<16384>::new();
        page.failures() == 0
            && table.write_report(&mut page).is_ok()
            && page.octets() == self.report().octets()
    }
}
