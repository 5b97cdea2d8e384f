//! A link with its line, which the workers of an edge share: the workers that enter events pass
//! frames on to it, and the link's worker sends those that wait.
ghost use Rattle.std.specs.Prelude.{◌≡◌, ◌-◌, ◌/◌, ◌≤◌, nat_le, false, length, if◌then◌else◌, None, IfSome};
ghost use Rattle.std.specs.Time.{instant_nanos};
ghost use Rattle.ev_links.specs.Line.{sourced, first_of, handed};
ghost use Rattle.ev_links.specs.DirectLine.{direct_of, Passes, after_turn, after_its_drop};
ghost use Rattle.ev_links.specs.Flow.{counted};
ghost use Rattle.ev_links.specs.Links.{packet};

use ether_wire::Addr;
use ev_links::{DirectLine, Flow, PromptOut};
use ev_mailboxes::LinkCounts;
use std::alloc::{AllocError, Global};
use std::sync::{Condvar, Mutex, Wait};
use std::time::{Clock, Instant};

/// How many seconds after its end a line keeps what waits. A line ends with the last worker of its
/// edge that enters events, which is up to a second after the end of the input.
const PATIENCE: u64 = 1;

/// A link with its line, the datagrams that were sent at once, and the time at which the line
/// ended.
#[derive(Drop)]
struct TimedLine<K> {
    line: DirectLine<K>,
    at_once: Flow,
    ended: Option<Instant>,
}

/// Returns `true` if a second has passed from one time to the other.
fn is_past(ended: Instant, now: Instant) -> bool
    ensures { result
        ≡ nat_le 1 ((instant_nanos now - instant_nanos ended) / 1_000_000_000) }
{
    now.duration_since(ended).as_secs() >= PATIENCE
}

/// Returns `true` if a line that ended at this time keeps nothing any more. Returns `false` if the
/// line hasn't ended, or the clock can't be read.
fn is_over<R: Clock>(rt: &R, ended: Option<Instant>) -> bool
    ensures { ended ≡ None → result ≡ false }
{
    match ended {
        Some(ended) => match Instant::now(rt) {
            Ok(now) => is_past(ended, now),
            Err(_) => false,
        },
        None => false,
    }
}

impl<K: PromptOut> TimedLine<K> {
    /// Passes a frame on, as `DirectLine::pass` does, and shows the numbers of the link.
    fn pass(&mut self, counts: Option<&LinkCounts>, source: usize, to: Addr, octets: &[u8]) -> bool
        ensures passes { Passes result (sourced source (packet to octets.now))
            (direct_of K.tried self.old.line) (direct_of K.tried self.new.line) }
        ensures counted { self.new.at_once ≡ (if result
            then counted (length octets.now) self.old.at_once else self.old.at_once) }
    {
        let is_sent = self.line.pass(source, to, octets);
        if is_sent {
            self.at_once = self.at_once.with(octets.len());
        }
        if let Some(counts) = counts {
            counts.at_once.show(self.at_once);
            counts.show_no_room(self.line.dropped());
        }
        is_sent
    }

    /// Drops and counts all that waits if `is_over`. Then takes the first BPDU or frame, as
    /// `DirectLine::take` does.
    fn take(&mut self, is_over: bool, buffer: &mut [u8]) -> Option<(Addr, usize)>
        requires { 9026 ≤ length buffer.old }
        ensures first { handed result buffer.new
            ≡ (if is_over then None else first_of self.old.line.line) }
        ensures rest { direct_of K.tried self.new.line ≡ after_turn
            (if is_over then after_its_drop (direct_of K.tried self.old.line)
            else direct_of K.tried self.old.line) }
        ensures fits { IfSome result (λ r. r.1 ≤ length buffer.new) }
        ensures counted { self.new.at_once ≡ self.old.at_once }
    {
        if is_over {
            self.line.drop_rest();
        }
        self.line.take(buffer)
    }
}

/// A link with its line, under a lock. Its calls have the effects of the calls of `DirectLine` that
/// they are named for. No clause can state this, since clauses can't name the value that a lock
/// holds at that moment. No call waits for the link with the lock held.
#[derive(Drop)]
pub(crate) struct SharedLine<K> {
    timed: Mutex<TimedLine<K>>,
    /// Notified after the lock is released, when something was put on the line or the line has
    /// ended.
    bell: Condvar,
}

impl<K: PromptOut> SharedLine<K> {
    /// Creates a line to this link on which nothing waits, with parts for the sources below
    /// `parts`.
    ///
    /// # Errors
    ///
    /// `AllocError` if memory is refused.
    pub(crate) fn new(alloc: Global, link: K, parts: usize) -> Result<Self, AllocError> {
        let line = DirectLine::new(alloc, link, parts)?;
        Ok(SharedLine {
            timed: Mutex::new(TimedLine {
                line,
                at_once: Flow::none(),
                ended: None,
            }),
            bell: Condvar::new(),
        })
    }

    /// Sends a frame, or a datagram, of a source at once. If that needs waiting, puts it on the
    /// line, or drops and counts it. Shows the numbers.
    pub(crate) fn pass<R: Wait>(
        &self,
        rt: &R,
        counts: Option<&LinkCounts>,
        source: usize,
        to: Addr,
        octets: &[u8],
    ) {
        let is_sent = {
            let mut timed = self.timed.lock(rt);
            timed.pass(counts, source, to, octets)
        };
        if !is_sent {
            self.bell.notify_one();
        }
    }

    /// Appends a BPDU's frame to the other BPDUs.
    pub(crate) fn put_bpdu<R: Wait>(&self, rt: &R, frame: &[u8; 60]) {
        {
            let mut timed = self.timed.lock(rt);
            timed.line.put_bpdu(frame);
        }
        self.bell.notify_one();
    }

    /// Ends the line: nothing more comes, and what waits is sent within a second.
    pub(crate) fn end<R: Wait + Clock>(&self, rt: &R) {
        let now = Instant::now(rt);
        {
            let mut timed = self.timed.lock(rt);
            timed.line.end();
            timed.ended = now.ok();
        }
        self.bell.notify_one();
    }

    /// Waits for the first BPDU or frame, and copies it to the front of the buffer. Returns its
    /// destination address and its number of octets, or `None` once nothing waits and the line has
    /// ended. A second after the end it drops and counts what waits. The link's worker calls this
    /// once it has sent what it got before.
    pub(crate) fn next<R: Wait + Clock>(&self, rt: &R, buffer: &mut [u8]) -> Option<(Addr, usize)>
        requires { 9026 ≤ length buffer.old }
        ensures { IfSome result (λ r. r.1 ≤ length buffer.new) }
    {
        let mut timed = self.timed.lock(rt);
        for _ in rt.forever() {
            let is_over = is_over(rt, timed.ended);
            let first = timed.take(is_over, buffer);
            if first.is_some() || timed.line.has_ended() {
                return first;
            }
            timed = self.bell.wait(rt, timed);
        }
        unreachable!()
    }

    /// Returns the number of frames and BPDUs that were dropped.
    pub(crate) fn dropped<R: Wait>(&self, rt: &R) -> u64 {
        self.timed.lock(rt).line.dropped()
    }
}
