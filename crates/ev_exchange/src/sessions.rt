//! The sessions with edges elsewhere: over how many connections updates of an edge come, and since
//! when over none. An edge is away if it has had no session for a number of seconds, and back once
//! it has one.
ghost use Rattle.std.specs.Prelude.{◌≡◌, [], map};
ghost use Rattle.std.specs.List.{list_any};
ghost use Rattle.ev_exchange.specs.Sessions.{is_of, changed, at_edge, is_overdue, turn_of, first_turn, after_begin, after_end, after_turn};

use arrayvec::ArrayVec;
use ether_wire::Addr;
use std::marker::Model;

/// The maximum number of edges elsewhere: an edge lists at most 64 originators.
const MOST: usize = 64;

/// The session with an edge elsewhere.
#[derive(Clone, Copy, Debug, PartialEq, Eq)]
pub struct Session {
    /// The address of the edge.
    pub edge: Addr,
    /// The number of connections over which updates of the edge come.
    pub connections: u64,
    /// The second at which one of these connections ended last.
    pub since: u64,
    /// The edges of this process have marked the edge as away.
    pub is_away: bool,
}

impl Default for Session {
    /// Returns the content of an unused place of a list.
    fn default() -> Self {
        Session {
            edge: Addr::default(),
            connections: 0,
            since: 0,
            is_away: false,
        }
    }
}

/// A step for the edges of this process: an edge elsewhere is away, or back.
#[derive(Clone, Copy, Debug, PartialEq, Eq)]
pub struct Turn {
    /// The address of the edge.
    pub edge: Addr,
    /// The edge is away; otherwise it is back.
    pub is_away: bool,
}

/// A change of a session.
#[derive(Clone, Copy, Debug, PartialEq, Eq)]
pub enum Change {
    /// One more connection has brought an update of the edge.
    Begins,
    /// One of its connections has ended at this second.
    Ends(u64),
    /// The edges of this process have marked the edge as away, or as back.
    Marks(bool),
}

impl Session {
    /// Returns the session after this change.
    fn changed(self, change: Change) -> Session
        ensures { result ≡ changed change self }
    {
        match change {
            Change::Begins => Session {
                connections: self.connections.saturating_add(1),
                ..self
            },
            Change::Ends(now) => Session {
                connections: self.connections.saturating_sub(1),
                since: now,
                ..self
            },
            Change::Marks(is_away) => Session { is_away, ..self },
        }
    }

    /// Returns the session after this change of the session with this edge.
    fn at_edge(self, edge: Addr, change: Change) -> Session
        ensures { result ≡ at_edge edge change self }
    {
        if self.edge == edge {
            self.changed(change)
        } else {
            self
        }
    }

    /// Returns `true` if the edge has had no session for `hold` seconds or longer. With `hold` 0
    /// returns `false`.
    fn is_overdue(&self, now: u64, hold: u64) -> bool
        ensures { result ≡ is_overdue now hold self.now }
    {
        self.connections == 0 && hold != 0 && hold <= now.saturating_sub(self.since)
    }

    /// Returns the step that is due for the edge at this second.
    fn turn(&self, now: u64, hold: u64) -> Option<Turn>
        ensures { result ≡ turn_of now hold self.now }
    {
        let is_overdue = self.is_overdue(now, hold);
        if is_overdue == self.is_away {
            return None;
        }
        Some(Turn {
            edge: self.edge,
            is_away: is_overdue,
        })
    }
}

/// Changes each of these sessions that is of this edge.
fn change_each(sessions: &mut [Session], edge: Addr, change: Change)
    ensures { sessions.new ≡ map (at_edge edge change) sessions.old }
{
    for session in sessions.iter_mut() {
        *session = session.at_edge(edge, change);
    }
}

/// The sessions with edges elsewhere, in the order in which they began first.
#[derive(Drop)]
pub struct Sessions {
    all: ArrayVec<Session, MOST>,
}

impl Model for Sessions {
    ghost use Rattle.std.specs.Prelude.{List};
    ghost use Rattle.ev_exchange.specs.declared.sessions.Session.{Session};

    ghost Value = { List Session };

    ghost view = { λ s. s.all.items };
}

impl Sessions {
    /// Returns no sessions.
    pub fn new() -> Self
        ensures { result ≡ [] }
    {
        Sessions {
            all: ArrayVec::new(),
        }
    }

    /// Returns `true` if this edge has or had a session.
    fn has(&self, edge: Addr) -> bool
        ensures { result ≡ list_any (is_of edge) self.now }
    {
        for session in self.all.as_slice() {
            if session.edge == edge {
                return true;
            }
        }
        false
    }

    /// Notes that the first update of this edge has come over a connection. Sessions with more than
    /// 64 edges aren't noted.
    pub fn begin(&mut self, edge: Addr)
        ensures { self.new ≡ after_begin edge self.old }
    {
        if self.has(edge) {
            change_each(self.all.as_mut_slice(), edge, Change::Begins);
            return;
        }
        if self.all.is_full() {
            return;
        }
        self.all.push(Session {
            edge,
            connections: 1,
            since: 0,
            is_away: false,
        });
    }

    /// Notes that a connection over which updates of this edge came has ended at this second.
    pub fn end(&mut self, edge: Addr, now: u64)
        ensures { self.new ≡ after_end edge now self.old }
    {
        change_each(self.all.as_mut_slice(), edge, Change::Ends(now));
    }

    /// Returns the first step that is due at this second. An edge is away if it has had no session
    /// for `hold` seconds, and with `hold` 0 it never is.
    pub fn due(&self, now: u64, hold: u64) -> Option<Turn>
        ensures { result ≡ first_turn now hold self.now }
    {
        for session in self.all.as_slice() {
            if let Some(turn) = session.turn(now, hold) {
                return Some(turn);
            }
        }
        None
    }

    /// Notes that the edges of this process have taken this step.
    pub fn note(&mut self, turn: &Turn)
        ensures { self.new ≡ after_turn turn.now self.old }
    {
        change_each(
            self.all.as_mut_slice(),
            turn.edge,
            Change::Marks(turn.is_away),
        );
    }
}
