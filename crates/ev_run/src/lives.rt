//! Finds out, while records are exchanged over a connection, whether an edge was restarted in an
//! incarnation that isn't higher than before, and reports that to the operator. Both sides do: the
//! edge's own process, and the process that holds routes of the earlier life.
ghost use Rattle.std.specs.Prelude.{◌≡◌, None, true, false, []};
ghost use Rattle.ev_run.specs.Inner.Lives.{has_said, is_kept_over};

use crate::records::ServedEdges;
use ether_wire::Addr;
use ev_book::Naming;
use ev_exchange::{Known, Life};
use ev_mailboxes::{Control, Refused};
use route_wire::Update;
use std::alloc::Global;
use std::sync::Wait;

/// The most edges elsewhere whose lives are kept: an edge lists at most 64 originators.
const MOST: usize = 64;

/// The most updates that are kept. A gateway sends many, and never one of this process's edges.
const UPDATES: u32 = 16_384;

/// The updates that have come over a connection, of each edge elsewhere, until they are compared
/// with the updates that this process holds of these edges.
#[derive(Drop)]
pub(crate) struct PeerLives {
    lives: Vec<Life>,
    /// The number of updates that came.
    updates: u32,
    /// They were compared, or there was no room for them.
    is_done: bool,
}

impl PeerLives {
    /// Returns no lives.
    pub(crate) fn new(alloc: Global) -> Self
        ensures { result.is_done ≡ false }
    {
        PeerLives {
            lives: Vec::new(alloc),
            updates: 0,
            is_done: false,
        }
    }

    /// Adds an update to the life of its edge, if the edge has one. Returns `None` if memory is
    /// refused, and otherwise whether the edge has a life.
    fn add_known(&mut self, update: &Update) -> Option<bool> {
        let originator = update.register().originator;
        for life in self.lives.as_mut_slice().iter_mut() {
            if life.originator() == originator {
                return match life.add(update) {
                    Ok(()) => Some(true),
                    Err(_) => None,
                };
            }
        }
        Some(false)
    }

    /// Adds an update to a new life of its edge. Returns `None` if memory is refused or there are
    /// 64 lives.
    fn add_new(&mut self, alloc: Global, update: &Update) -> Option<()> {
        if self.lives.len() >= MOST {
            return None;
        }
        let mut life = Life::new(alloc, update.register().originator);
        if life.add(update).is_err() {
            return None;
        }
        self.lives.push(life).ok()
    }

    /// Forgets all lives, and keeps none any more.
    fn end(&mut self)
        ensures { self.new.is_done ≡ true }
    {
        self.is_done = true;
        self.lives.clear();
    }

    /// Adds an update that came, unless they were compared. Ends if there is no room for it.
    pub(crate) fn add(&mut self, alloc: Global, update: &Update) {
        if self.is_done {
            return;
        }
        self.updates = self.updates.saturating_add(1);
        let added = match self.add_known(update) {
            Some(false) => self.add_new(alloc, update),
            Some(true) => Some(()),
            None => None,
        };
        if added.is_none() || self.updates >= UPDATES {
            self.end();
        }
    }

    /// Reports each edge elsewhere of which these updates are, if it hasn't sent one of them that
    /// isn't of an earlier life.
    fn report<J: Naming, R: Wait>(&self, edges: &ServedEdges<'_, J, R>, held: &[Update]) {
        for life in self.lives.as_slice() {
            if life.lacks_any(held) {
                let refused = Refused::Outlived(life.originator());
                edges.running.refuse(edges.rt, refused);
            }
        }
    }

    /// Compares the lives with the updates that the first edge of this process holds, page by page.
    /// Returns `None` if it stops before, since the edge has ended or memory is refused.
    fn compare_pages<J: Naming, R: Wait>(&self, edges: &ServedEdges<'_, J, R>) -> Option<()> {
        let control = edges.running.edge(1)?;
        let mut after = None;
        for _ in edges.rt.forever() {
            let page = control.page(edges.rt, edges.alloc, after)?.ok()?;
            self.report(edges, page.updates());
            if page.is_last() {
                return Some(());
            }
            after = page.end();
        }
        unreachable!()
    }

    /// Compares the lives, once, with the updates that the first edge of this process holds.
    pub(crate) fn compare<J: Naming, R: Wait>(&mut self, edges: &ServedEdges<'_, J, R>) {
        if self.is_done {
            return;
        }
        let _compared = self.compare_pages(edges);
        self.end();
    }
}

/// Returns the edge of this process with this address, or `None` if memory is refused or an edge
/// has ended.
fn edge_at<'x, J: Naming, R: Wait>(
    edges: &ServedEdges<'x, J, R>,
    originator: Addr,
) -> Option<Control<'x, J>> {
    for place in 0..edges.running.edges() {
        let control = edges.running.edge(place + 1)?;
        let served = control.served(edges.rt, edges.alloc)?.ok()?;
        if served.address == originator {
            return Some(control);
        }
    }
    None
}

/// Adds to a life those of the updates that are of its edge. Returns `None` if memory is refused.
fn add_own(life: &mut Life, updates: &[Update]) -> Option<()> {
    let originator = life.originator();
    for update in updates {
        if update.register().originator == originator && life.add(update).is_err() {
            return None;
        }
    }
    Some(())
}

/// Returns the present life of an edge of this process, by its table, or `None` if memory is
/// refused or an edge has ended.
fn present_life<J: Naming, R: Wait>(
    edges: &ServedEdges<'_, J, R>,
    originator: Addr,
) -> Option<Life> {
    let control = edge_at(edges, originator)?;
    let mut life = Life::new(edges.alloc, originator);
    let mut after = None;
    for _ in edges.rt.forever() {
        let page = control.page(edges.rt, edges.alloc, after)?.ok()?;
        add_own(&mut life, page.updates())?;
        if page.is_last() {
            return Some(life);
        }
        after = page.end();
    }
    unreachable!()
}

/// The edges of this process whose updates come back over a connection.
#[derive(Drop)]
pub(crate) struct OwnLives {
    /// The life of the edge whose updates come at present, by its table at an earlier time.
    life: Option<Life>,
    /// The edges that were reported.
    reported: Known,
}

impl OwnLives {
    /// Returns no lives.
    pub(crate) fn new() -> Self
        ensures life { result.life ≡ None }
        ensures reported { result.reported ≡ [] }
    {
        OwnLives {
            life: None,
            reported: Known::new(),
        }
    }

    /// Forgets the life, since another edge's update came.
    pub(crate) fn forget(&mut self)
        ensures life { self.new.life ≡ None }
        ensures reported { self.new.reported ≡ self.old.reported }
    {
        self.life = None;
    }

    /// Returns `true` if the kept life is that of the update's edge, and doesn't lack the update.
    fn has(&self, update: &Update) -> bool
        ensures { result ≡ has_said self.now.life update.now }
    {
        match &self.life {
            Some(life) => {
                update.register().originator == life.originator() && !life.lacks(update)
            }
            None => false,
        }
    }

    /// Returns `true` if the update is a withdrawal that the edge whose life is kept made in an
    /// earlier life, and that was new to the edge when the life was made.
    pub(crate) fn is_left_over(&self, update: &Update) -> bool
        ensures { result ≡ is_kept_over self.now.life update.now }
    {
        match &self.life {
            Some(life) => life.is_left_over(update),
            None => false,
        }
    }

    /// Compares an update of an edge of this process that came back with the edge's table, and
    /// reports the edge, once, if it made the update in an earlier life that isn't older.
    pub(crate) fn compare<J: Naming, R: Wait>(
        &mut self,
        edges: &ServedEdges<'_, J, R>,
        update: &Update,
    ) {
        let originator = update.register().originator;
        if self.has(update) || self.reported.has(originator) {
            return;
        }
        // The edge may have announced the update after the kept life was made.
        self.life = present_life(edges, originator);
        if let Some(life) = &self.life {
            if life.lacks(update) && self.reported.meet(originator) {
                let refused = Refused::OwnOutlived(originator);
                edges.running.refuse(edges.rt, refused);
            }
        }
    }
}
