//! The boards of all edges. The edges' workers share them with the worker that writes the
//! operator's lines.
ghost use Rattle.std.specs.Prelude.{◌≡◌, ◌-◌, IfOk, slice_get, option_copied, option_map, vec_len};
ghost use Rattle.ev_mailboxes.specs.Boards.{GivesLinks};

use crate::{
    Alarm, Board, LINKS, LinkCounts, News, Reception, Receptions, Refusals, Refused, Sendings,
};
use std::alloc::{AllocError, Global};
use std::sync::atomic::{AtomicUsize, Ordering};
use std::sync::{Condvar, Mutex, Wait};

/// The state of the bell that wakes the worker that writes the operator's lines.
#[derive(Clone, Copy)]
struct Bell {
    /// Set by each ring, and cleared when the worker wakes; set for good after the last ring.
    is_rung: bool,
    /// No more news comes.
    has_ended: bool,
}

/// The waiting news of one edge, each kind under a lock of its own.
#[derive(Drop)]
struct EdgeNotices {
    /// Its alerts.
    board: Mutex<Board>,
    /// Changes of its links: receiving failed, or works again.
    receptions: Mutex<Receptions>,
    /// Changes of its links: sends failed, or work again.
    sendings: Mutex<Sendings>,
    /// The numbers of its links, the tunnel's first, and of those that it could have.
    links: Vec<LinkCounts>,
    /// The number of links that it has.
    used: AtomicUsize,
}

/// Returns the numbers of as many links as an edge can have.
fn unused_links(alloc: Global) -> Result<Vec<LinkCounts>, AllocError>
    ensures { IfOk result (λ links. vec_len links ≡ 65) }
{
    let mut links = Vec::with_capacity(alloc, LINKS)?;
    for place in 0..LINKS {
        let _ = place;
        links.push_reserved(LinkCounts::new());
    }
    Ok(links)
}

impl EdgeNotices {
    /// Looks at what came and was sent over each link, when a second passes. Returns `true` if a
    /// change of the sends waits to be reported since then.
    fn look<R: Wait>(&self, rt: &R) -> bool {
        let mut is_put = false;
        let mut sendings = self.sendings.lock(rt);
        for (place, link) in self.links.iter().enumerate() {
            link.second();
            let is_changed = sendings.second(place, link.sent(), link.failed());
            is_put = is_put || is_changed;
        }
        is_put
    }
}

/// A board for each edge. The calls act as the calls of `Board` and `Receptions`; no clause can
/// state that, since a clause can't name the content of a lock at that moment. A thread that holds
/// a lock never waits for another lock.
#[derive(Drop)]
pub struct Boards {
    all: Vec<EdgeNotices>,
    /// Refused input from other processes.
    refusals: Mutex<Refusals>,
    bell: Mutex<Bell>,
    /// The condition variable of the bell's lock.
    ringing: Condvar,
}

impl Boards {
    /// Returns empty boards for `edges` edges.
    ///
    /// # Errors
    ///
    /// `AllocError` if memory is refused.
    pub fn new(alloc: Global, edges: usize) -> Result<Self, AllocError>
        ensures { IfOk result (λ boards. vec_len boards.all ≡ edges) }
    {
        let mut all = Vec::with_capacity(alloc, edges)?;
        for place in 0..edges {
            let _ = place;
            all.push_reserved(EdgeNotices {
                board: Mutex::new(Board::new()),
                receptions: Mutex::new(Receptions::new()),
                sendings: Mutex::new(Sendings::new()),
                links: unused_links(alloc)?,
                used: AtomicUsize::new(0),
            });
        }
        Ok(Boards {
            all,
            refusals: Mutex::new(Refusals::new()),
            bell: Mutex::new(Bell {
                is_rung: false,
                has_ended: false,
            }),
            ringing: Condvar::new(),
        })
    }

    /// Returns the waiting news of the edge with this number, counted from 1.
    fn of(&self, edge: usize) -> Option<&EdgeNotices>
        ensures { option_copied result ≡ slice_get self.now.all.items (edge - 1) }
    {
        self.all.get(edge.saturating_sub(1))
    }

    /// Rings the bell, for the last time if `has_ended`.
    fn ring<R: Wait>(&self, rt: &R, has_ended: bool) {
        {
            let mut bell = self.bell.lock(rt);
            *bell = Bell {
                is_rung: true,
                has_ended,
            };
        }
        self.ringing.notify_one();
    }

    /// Notes that the edge with this number has so many links.
    pub(crate) fn use_links(&self, edge: usize, count: usize) {
        if let Some(of_edge) = self.of(edge) {
            of_edge.used.store(count.min(LINKS), Ordering::SeqCst);
        }
    }

    /// Returns the numbers of the links of the edge with this number, the tunnel's first.
    pub(crate) fn links(&self, edge: usize) -> Option<&[LinkCounts]>
        ensures { GivesLinks self.now.all.items (edge - 1)
            (option_map (λ links. links.now) result) }
    {
        let of_edge = self.of(edge)?;
        let used = of_edge.used.load(Ordering::SeqCst);
        let links = of_edge.links.as_slice();
        let (links, _) = links.split_at(used.min(links.len()));
        Some(links)
    }

    /// Counts a second that passes at the edge with this number, and looks at its links.
    pub(crate) fn second<R: Wait>(&self, rt: &R, edge: usize) {
        let Some(of_edge) = self.of(edge) else {
            return;
        };
        of_edge.board.lock(rt).second();
        if of_edge.look(rt) {
            self.ring(rt, false);
        }
    }

    /// Puts an alert on the board of the edge with this number, which accepts or suppresses it. A
    /// suppressed alert touches nothing for which another edge waits.
    pub(crate) fn alarm<R: Wait>(&self, rt: &R, edge: usize, alarm: Alarm) {
        let Some(of_edge) = self.of(edge) else {
            return;
        };
        let is_put = of_edge.board.lock(rt).alarm(alarm);
        if is_put {
            self.ring(rt, false);
        }
    }

    /// Reports that receiving over a link of the edge with this number failed, or works again.
    pub(crate) fn reception<R: Wait>(&self, rt: &R, edge: usize, reception: Reception) {
        let Some(of_edge) = self.of(edge) else {
            return;
        };
        let is_put = of_edge.receptions.lock(rt).put(reception);
        if is_put {
            self.ring(rt, false);
        }
    }

    /// Reports that input from another process was refused, each refusal once.
    pub(crate) fn refuse<R: Wait>(&self, rt: &R, refused: Refused) {
        let is_put = self.refusals.lock(rt).put(refused);
        if is_put {
            self.ring(rt, false);
        }
    }

    /// Rings the bell for the last time: no more news comes.
    pub fn end<R: Wait>(&self, rt: &R) {
        self.ring(rt, true);
    }

    /// Takes the first waiting news, with the number of its edge, or 0 if it belongs to no edge.
    fn first<R: Wait>(&self, rt: &R) -> Option<(u64, News)> {
        if let Some(refused) = self.refusals.lock(rt).take() {
            return Some((0, News::Refused(refused)));
        }
        for (place, of_edge) in self.all.iter().enumerate() {
            let edge = place as u64 + 1;
            if let Some(reception) = of_edge.receptions.lock(rt).take() {
                return Some((edge, News::Reception(reception)));
            }
            if let Some(sending) = of_edge.sendings.lock(rt).take() {
                return Some((edge, News::Sending(sending)));
            }
            if let Some(notice) = of_edge.board.lock(rt).take() {
                return Some((edge, News::Alerts(notice)));
            }
        }
        None
    }

    /// Takes the first count that is written at the end, with the number of its edge.
    fn last<R: Wait>(&self, rt: &R) -> Option<(u64, News)> {
        for (place, of_edge) in self.all.iter().enumerate() {
            let edge = place as u64 + 1;
            if let Some(count) = of_edge.receptions.lock(rt).take_untold() {
                return Some((edge, News::Untold(count)));
            }
            if let Some(notice) = of_edge.board.lock(rt).take_last() {
                return Some((edge, News::Alerts(notice)));
            }
        }
        None
    }

    /// Waits until the bell rings, and returns `true` if that was the last ring.
    fn wait<R: Wait>(&self, rt: &R) -> bool {
        let mut bell = self.bell.lock(rt);
        for _ in rt.forever() {
            if bell.is_rung {
                bell.is_rung = bell.has_ended;
                return bell.has_ended;
            }
            bell = self.ringing.wait(rt, bell);
        }
        unreachable!()
    }

    /// Waits for the next news, with the number of its edge. Returns `None` once nothing waits, no
    /// more news comes, and each edge's numbers of suppressed alerts and unreported changes were
    /// returned.
    pub(crate) fn next<R: Wait>(&self, rt: &R) -> Option<(u64, News)> {
        for _ in rt.forever() {
            let first = self.first(rt);
            if first.is_some() {
                return first;
            }
            if self.wait(rt) {
                return match self.first(rt) {
                    Some(first) => Some(first),
                    None => self.last(rt),
                };
            }
        }
        unreachable!()
    }
}
