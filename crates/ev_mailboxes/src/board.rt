//! The alerts of an edge: those that wait for the operator, and the recent ones, which were taken
//! and came less than 180 seconds ago. Each alert of a station, or about the limit of a port, is
//! reported once in 180 seconds, and the others are counted.
ghost use Rattle.std.specs.Prelude.{◌≡◌, ◌+◌, ◌≤◌, [], length, filter};
ghost use Rattle.std.specs.List.{list_any};
ghost use Rattle.ev_mailboxes.specs.Board.{empty_board, same_station, same_limit, is_like, is_fresh, forgetting, after_second, is_put, after_alarm, first_in, first_notice, after_take, last_notice, after_last};

use crate::alarm::Alarm;
use arrayvec::ArrayVec;
use ev_mobility::Alert;
use mac_arena::Station;
use std::marker::Model;

/// The greatest number of alerts that wait or are recent. With this number a line comes every
/// eleven seconds: no operator reads more of them, and each further alert is compared with all of
/// them.
const MOST: usize = 16;

/// The number of seconds for which a reported alert isn't reported again. A station that moves five
/// times within this number of seconds is frozen.
const SPAN: u64 = 180;

/// An alert that was put on a board.
#[derive(Clone, Copy, Debug, PartialEq, Eq)]
pub struct Posted {
    /// The alert.
    pub alarm: Alarm,
    /// The second at which it came.
    pub second: u64,
    /// The number of alerts suppressed between the alert before it and this one.
    pub held: u64,
}

impl Default for Posted {
    /// Returns the content of an unused place of a board.
    fn default() -> Self {
        Posted {
            alarm: Alarm {
                alert: Alert::NoMemory,
                station: None,
                port: None,
            },
            second: 0,
            held: 0,
        }
    }
}

/// One notice for an operator: the number of alerts that were suppressed before, and an alert. The
/// notice at the end has no alert.
#[derive(Clone, Copy, Debug, PartialEq, Eq)]
pub struct Notice {
    /// The number of suppressed alerts.
    pub held: u64,
    /// The alert.
    pub alarm: Option<Alarm>,
}

/// The alerts of an edge: those that wait for the operator, and the recent ones, which were taken
/// and came less than 180 seconds ago. A board takes no memory beyond its own.
#[derive(Drop)]
pub struct Board {
    /// The alerts that were taken, the first one first.
    told: ArrayVec<Posted, MOST>,
    /// The alerts that wait, the first one first.
    waiting: ArrayVec<Posted, MOST>,
    /// The number of seconds that have passed.
    clock: u64,
    /// The number of alerts that were suppressed since the last accepted one.
    held: u64,
}

impl Model for Board {
    ghost use Rattle.std.specs.Prelude.{◌≤◌, ◌+◌, length};
    ghost use Rattle.std.specs.Coded.{codes};
    ghost use Rattle.std.specs.FinMap.{code};
    ghost use Rattle.ev_mailboxes.specs.Board.{BoardState, board_of};

    ghost Value = { BoardState };

    ghost coded = { Prim.hlevel (codes, code) };

    ghost view = { λ b. board_of b.told.items b.waiting.items b.clock b.held };

    ghost invariant = { λ b. length b.told.items + length b.waiting.items ≤ 16 };
}

/// Returns `true` if two stations are equal.
fn same_station(one: &Option<Station>, other: &Option<Station>) -> bool
    ensures { result ≡ same_station one.now other.now }
{
    match (one, other) {
        (None, None) => true,
        (Some(one), Some(other)) => {
            one.vni.number() == other.vni.number() && one.mac.number() == other.mac.number()
        }
        _ => false,
    }
}

/// Returns `true` if two alerts are about the limit of the same port, or of no port.
fn same_limit(one: Option<u8>, other: Option<u8>) -> bool
    ensures { result ≡ same_limit one other }
{
    match (one, other) {
        (None, None) => true,
        (Some(one), Some(other)) => one == other,
        _ => false,
    }
}

/// Returns `true` if an accepted alert has the same kind and station, and the same port if it is
/// about the limit of one.
fn is_like(alarm: &Alarm, posted: &Posted) -> bool
    ensures { result ≡ is_like alarm.now posted.now }
{
    alarm.alert.number() == posted.alarm.alert.number()
        && same_station(&alarm.station, &posted.alarm.station)
        && same_limit(alarm.alert.port(), posted.alarm.alert.port())
}

/// Returns `true` if one of these alerts is like it.
fn is_known(alarm: &Alarm, all: &[Posted]) -> bool
    ensures { result ≡ list_any (is_like alarm.now) all.now }
{
    for posted in all {
        if is_like(alarm, posted) {
            return true;
        }
    }
    false
}

/// Returns `true` if an alert came less than 180 seconds before this second.
fn is_fresh(now: u64, posted: &Posted) -> bool
    ensures { result ≡ is_fresh now posted.now }
{
    now.saturating_sub(posted.second) < SPAN
}

/// Returns the taken alerts that came less than 180 seconds before this second.
fn fresh(now: u64, told: &ArrayVec<Posted, MOST>) -> ArrayVec<Posted, MOST>
    ensures items { result.items ≡ filter (is_fresh now) told.now.items }
    ensures fewer { length result.items ≤ length told.now.items }
{
    let mut left = ArrayVec::new();
    for posted in told.as_slice() {
        if is_fresh(now, posted) {
            left.push(*posted);
        }
    }
    left
}

/// Returns the notice of the first of these alerts.
fn first_in(waiting: &[Posted]) -> Option<Notice>
    ensures { result ≡ first_in waiting.now }
{
    let posted = waiting.first()?;
    Some(Notice {
        held: posted.held,
        alarm: Some(posted.alarm),
    })
}

impl Board {
    /// Returns an empty board.
    pub fn new() -> Self
        ensures { result ≡ empty_board }
    {
        Board {
            told: ArrayVec::new(),
            waiting: ArrayVec::new(),
            clock: 0,
            held: 0,
        }
    }

    /// Counts a second that passes.
    pub fn second(&mut self)
        ensures { self.new ≡ after_second self.old }
    {
        self.clock = self.clock.saturating_add(1);
    }

    /// Returns `true` if the board accepts an alert: no taken or waiting alert of the board is like
    /// it, and there is room.
    fn is_put(&self, alarm: &Alarm) -> bool
        ensures { result ≡ is_put alarm.now self.now }
    {
        !is_known(alarm, self.told.as_slice())
            && !is_known(alarm, self.waiting.as_slice())
            && self.told.len() + self.waiting.len() < MOST
    }

    /// Accepts an alert, or suppresses and counts it. Returns `true` if the board accepted it.
    pub fn alarm(&mut self, alarm: Alarm) -> bool
        ensures put { result ≡ is_put alarm (forgetting self.old) }
        ensures after { self.new ≡ after_alarm alarm self.old }
    {
        self.told = fresh(self.clock, &self.told);
        if !self.is_put(&alarm) {
            self.held = self.held.saturating_add(1);
            return false;
        }
        self.waiting.push(Posted {
            alarm,
            second: self.clock,
            held: self.held,
        });
        self.held = 0;
        true
    }

    /// Takes the first waiting alert.
    pub fn take(&mut self) -> Option<Notice>
        ensures first { result ≡ first_notice self.old }
        ensures rest { self.new ≡ after_take self.old }
    {
        let first = first_in(self.waiting.as_slice())?;
        let posted = self.waiting.remove(0);
        self.told.push(posted);
        Some(first)
    }

    /// Takes the notice at the end: the number of alerts that were suppressed since the last
    /// accepted one.
    pub fn take_last(&mut self) -> Option<Notice>
        ensures last { result ≡ last_notice self.old }
        ensures rest { self.new ≡ after_last self.old }
    {
        let held = self.held;
        self.held = 0;
        if held == 0 {
            return None;
        }
        Some(Notice { held, alarm: None })
    }
}
