//! Watches the sessions with edges elsewhere. An edge whose session is down for too long is away at
//! the edges of this process, until it has a session again.

use ev_book::Naming;
use ev_console::take_turn;
use ev_exchange::Sessions;
use ev_mailboxes::Running;
use std::sync::{Mutex, Wait};
use std::time::Clock;

/// Returns the second of the clock that never goes back, or 0 if the clock can't be read.
pub(crate) fn second_now<R: Clock>(rt: &R) -> u64 {
    match rt.monotonic() {
        Ok(time) => time.as_secs(),
        Err(_) => 0,
    }
}

/// Enters the first step that is due now for an edge elsewhere at the edges of this process. An
/// edge is away `hold` seconds after its session has ended, or never if `hold` is 0. Returns `true`
/// if a step was due and no edge refused it.
pub(crate) fn enter_due<'x, J: Naming, R: Wait + Clock>(
    rt: &'x R,
    running: &Running<'x, J>,
    sessions: &Mutex<Sessions>,
    hold: u64,
) -> bool {
    let now = second_now(rt);
    let mut sessions = sessions.lock(rt);
    take_turn(rt, running, &mut *sessions, now, hold)
}
