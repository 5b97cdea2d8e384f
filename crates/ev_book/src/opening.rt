//! A history that begins, and the seats of its edges.
ghost use Rattle.std.specs.Prelude.{◌≡◌, ℕ, Some, true, IfOk, is_some, length, vec_len, slice_get};
ghost use Rattle.ev_book.specs.Log.{world};
ghost use Rattle.ev_book.specs.HistoryOpening.{is_new, IsNew};

use crate::front::{Front, Naming};
use crate::log_entry::LogEntry;
use crate::rule::History;
use crate::seat::Seat;
use crate::told::Told;
use logbook::{Opening, Pens, Seen, Start};
use route_wire::Update;
use std::alloc::{AllocError, Global};

/// A history that begins. It has no name yet.
#[derive(Drop)]
pub struct NewHistory {
    pub(crate) seen: Seen<LogEntry, u64, History>,
    pens: Pens,
    edges: usize,
    outside: bool,
    pub ghost begins: { is_new seen.log ≡ true },
    pub ghost outside_is: { (world seen.log).outside ≡ outside },
    pub ghost edges_are: { length (world seen.log).configs ≡ edges },
    pub ghost same: { pens.book ≡ seen.book },
    pub ghost first: { pens.next ≡ 0 },
    pub ghost each: { pens.left ≡ edges },
}

impl NewHistory {
    /// Returns a history of `edges` edges. Updates of other processes come in if `outside`. Its
    /// configurations are those that `M` reads from `about`.
    #[tactic(auto, using(crate::proofs::Beginning::new_kept, crate::proofs::Beginning::new_is, crate::proofs::Beginning::new_outside, crate::proofs::Beginning::new_each))]
    pub fn new<X, M: Opening<X, LogEntry>>(about: &X, edges: usize, outside: bool) -> Self
        requires { IsNew outside (M.log edges about.now) edges }
        ensures log { result.seen.log ≡ M.log edges about.now }
        ensures outside { result.outside ≡ outside }
        ensures edges { result.edges ≡ edges }
    {
        let (seen, pens) = Seen::open_row::<X, M>(about, Start::alone(), edges);
        NewHistory {
            seen,
            pens,
            edges,
            outside,
        }
    }

    /// Returns the right to bring in updates of other processes, under a name of the history, if
    /// they may come in.
    #[tactic(auto, using(crate::proofs::Beginning::is_legal))]
    pub fn outside<J: Naming>(&self) -> Option<Outside<J>>
        requires { self.now.seen.book ≡ J.book }
        ensures { is_some result ≡ self.now.outside }
    {
        if !self.outside {
            return None;
        }
        Some(Outside {
            front: Front::of(self.seen.again()),
        })
    }

    /// Names the history. Returns its beginning, and the seat of each edge.
    ///
    /// # Errors
    ///
    /// `AllocError` if memory is refused.
    #[tactic(auto, using(crate::proofs::Beginning::is_legal, crate::proofs::Beginning::is_none, crate::proofs::Beginning::is_seated))]
    pub fn seats<J: Naming>(self, alloc: Global) -> Result<(Front<J>, Vec<Seat<J>>), AllocError>
        requires { self.seen.book ≡ J.book }
        ensures front { IfOk result (λ r. r.0 ≡ self.seen.log) }
        ensures places { IfOk result
            (λ r. (n : ℕ) (s : _) → slice_get r.1.items n ≡ Some s → s.place ≡ n) }
        ensures logs { IfOk result
            (λ r. (n : ℕ) (s : _) → slice_get r.1.items n ≡ Some s → s.log ≡ self.seen.log) }
        ensures len { IfOk result (λ r. vec_len r.1 ≡ self.edges) }
    {
        let NewHistory {
            seen,
            mut pens,
            edges,
            outside: _,
        } = self;
        let front = Front::of(seen);
        let mut seats = Vec::with_capacity(alloc, edges)?;
        for place in 0..edges {
            let mut pen = pens.take();
            seats.push_reserved(Seat::new(place as u64, &mut pen, front.again()));
        }
        Ok((front, seats))
    }
}

/// The right to bring updates of other processes into a history.
#[derive(Drop)]
pub struct Outside<J: Naming> {
    front: Front<J>,
    pub ghost open: { (world front).outside ≡ true },
}

impl<J: Naming> Outside<J> {
    /// Returns an update of another process, for an edge of this one.
    #[tactic(auto, using(crate::proofs::Beginning::outside_known))]
    pub fn bring(&self, update: Update) -> Told<J>
        ensures { result ≡ update }
    {
        Told::new(update, self.front.again())
    }
}
