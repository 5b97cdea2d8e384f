//! Learning the source of a frame: which of the twelve cases it is, and what that does.
ghost use Rattle.std.specs.Prelude.{◌≡◌, ◌<◌, ◌^◌, ◌||◌, true, false, None, Some};
ghost use Rattle.std.specs.FinMap.{get};
ghost use Rattle.ether_wire.specs.Addr.{is_group};
ghost use Rattle.mac_arena.specs.Learning.{entry_at, is_full};
ghost use Rattle.ev_mobility.specs.Seq.{seq_for};
ghost use Rattle.ev_claims.specs.LocalRoutes.{vni_at};
ghost use Rattle.ev_edge.specs.Edge.{table_of, address_of};
ghost use Rattle.ev_mobility.specs.Window.{is_fifth};
ghost use Rattle.ev_edge.specs.Learning.{case_on, limited, limited_new, new_case, numbered_case, moved, learnt};
ghost use Rattle.ev_edge.specs.Learning.{is_there, is_busy};
ghost use Rattle.ev_edge.specs.Learning.{needs_register, needs_window, OrNoMemory, Learning};

use crate::edge::Edge;
use ev_claims::SPENT;
use ev_mobility::{Alert, Seq, next_seq};
use mac_arena::Station;

/// The treatment of a frame's source.
#[derive(Clone, Copy, Debug, PartialEq, Eq)]
pub enum Case {
    /// It is pinned or frozen: nothing.
    Leave,
    /// It is learnt, and heard again.
    Refresh,
    /// It is not learnt, with this alert.
    Refuse(Alert),
    /// It has moved for the fifth time in one window: it is frozen, and not learnt.
    Freeze,
    /// No other edge advertises it: it is learnt, and advertised with sequence number 0.
    Learn,
    /// It moves here from another edge: it is learnt, and advertised with this sequence number.
    Move(u32),
}

impl Edge {
    /// Learns a station on a port of its VNI, and returns the alert for the operator, if any.
    pub(crate) fn learn(&mut self, station: &Station, port: u8) -> Option<Alert>
        requires individual { is_group station.now.mac ≡ false }
        requires port { vni_at self.old.routes.ports port ≡ Some station.now.vni }
        ensures { Learning self.old station.now port result self.new }
    {
        match self.case_on(station, port) {
            Case::Leave => None,
            Case::Refresh => {
                self.routes.refresh(station, port, self.clock);
                None
            }
            Case::Refuse(alert) => Some(alert),
            Case::Freeze => self.freeze(station),
            Case::Learn => self.learn_first(station, port),
            Case::Move(number) => self.learn_moved(station, port, number),
        }
    }

    /// Returns the case of a station on a port of its VNI.
    fn case_on(&self, station: &Station, port: u8) -> Case
        requires { vni_at self.now.routes.ports port ≡ Some station.now.vni }
        ensures { result ≡ case_on self.now station.now port }
    {
        match self.routes.look(station) {
            Some(entry) if entry.pinned => Case::Leave,
            Some(entry) if entry.port == port => Case::Refresh,
            Some(_) => self.limited(station, port, Case::Refresh),
            None => self.limited(station, port, self.new_case(station)),
        }
    }

    /// Returns the case of a station that isn't at the port yet by the limits of the port, too.
    fn limited(&self, station: &Station, port: u8, case: Case) -> Case
        requires port { vni_at self.now.routes.ports port ≡ Some station.now.vni }
        requires elsewhere { is_there (entry_at self.now.routes.learned station.now) port ≡ false }
        ensures { result ≡ limited self.now station.now port case }
    {
        match case {
            Case::Leave => case,
            Case::Refuse(_) => case,
            Case::Refresh => {
                if self.is_crowded(station, port) {
                    return Case::Refuse(Alert::PortFull(port));
                }
                case
            }
            _ => self.limited_new(station, port, case),
        }
    }

    /// Returns the case of a station that would be learnt, by the limits of the port, too.
    fn limited_new(&self, station: &Station, port: u8, case: Case) -> Case
        requires port { vni_at self.now.routes.ports port ≡ Some station.now.vni }
        requires elsewhere { is_there (entry_at self.now.routes.learned station.now) port ≡ false }
        ensures { result ≡ limited_new self.now station.now port case }
    {
        if self.is_crowded(station, port) {
            return Case::Refuse(Alert::PortFull(port));
        }
        if self.is_busy(station, port) {
            return Case::Refuse(Alert::PortBusy(port));
        }
        case
    }

    /// The case of a station that isn't learnt.
    fn new_case(&self, station: &Station) -> Case
        ensures { result ≡ new_case self.now station.now (get self.now.windows station.now) }
    {
        if self.moves.frozen(station) {
            return Case::Leave;
        }
        match self.next_seq(station) {
            Seq::Static => Case::Refuse(Alert::StaticElsewhere),
            Seq::Spent => Case::Refuse(Alert::SequenceSpent),
            Seq::Next(number) => self.numbered_case(station, number),
        }
    }

    /// The case of a station that isn't learnt, with its next sequence number.
    fn numbered_case(&self, station: &Station, number: u32) -> Case
        ensures { result
            ≡ numbered_case self.now (get self.now.windows station.now) (Seq.Next number) }
    {
        if self.routes.counter() >= SPENT {
            return Case::Refuse(Alert::CounterSpent);
        }
        if self.routes.is_full() {
            return Case::Refuse(Alert::TableFull);
        }
        if number == 0 {
            return Case::Learn;
        }
        if self.moves.fifth(station, self.clock) {
            return Case::Freeze;
        }
        Case::Move(number)
    }

    /// The sequence number of the next own advert of a station.
    pub(crate) fn next_seq(&self, station: &Station) -> Seq
        ensures { result
            ≡ seq_for (table_of self.now) (address_of self.now) station.now.vni station.now.mac }
    {
        next_seq(
            self.routes.table(),
            self.routes.address(),
            station.vni,
            station.mac,
        )
    }

    /// Notes the fifth move of a station's window, which freezes it. It takes no memory: a station
    /// with a window has its place.
    fn freeze(&mut self, station: &Station) -> Option<Alert>
        requires { is_fifth (get self.old.windows station.now) self.old.clock ≡ true }
        ensures told { result ≡ Some Alert.Duplicate }
        ensures after { self.new ≡ moved self.old station.now }
    {
        self.moves.always_placed();
        self.moves.note(station, self.clock);
        Some(Alert::Duplicate)
    }

    /// Learns a station that no other edge advertises. Only a register that has to be made can
    /// want memory.
    fn learn_first(&mut self, station: &Station, port: u8) -> Option<Alert>
        requires individual { is_group station.now.mac ≡ false }
        requires port { vni_at self.old.routes.ports port ≡ Some station.now.vni }
        requires new { entry_at self.old.routes.learned station.now ≡ None }
        requires room { is_full self.old.routes.learned ≡ false }
        requires counter { self.old.routes.speaker.counter < 2 ^ 63 }
        requires next { seq_for (table_of self.old)
            (address_of self.old) station.now.vni station.now.mac ≡ Seq.Next 0 }
        requires few { is_busy self.old station.now port ≡ false }
        ensures { OrNoMemory (needs_register self.old station.now) self.old None
            (learnt self.old station.now port 0) result self.new }
    {
        self.routes.always_good();
        let is_counted = self.is_counted(station, port);
        if self.routes.advertise(station, port, self.clock, 0).is_err() {
            return Some(Alert::NoMemory);
        }
        if is_counted {
            self.count_new(port);
        }
        None
    }

    /// Learns a station that another edge advertises: it moves here. Only a register or a window
    /// that has to be made can want memory.
    fn learn_moved(&mut self, station: &Station, port: u8, number: u32) -> Option<Alert>
        requires individual { is_group station.now.mac ≡ false }
        requires port { vni_at self.old.routes.ports port ≡ Some station.now.vni }
        requires new { entry_at self.old.routes.learned station.now ≡ None }
        requires room { is_full self.old.routes.learned ≡ false }
        requires counter { self.old.routes.speaker.counter < 2 ^ 63 }
        requires next { seq_for (table_of self.old)
            (address_of self.old) station.now.vni station.now.mac ≡ Seq.Next number }
        requires few { is_busy self.old station.now port ≡ false }
        ensures { OrNoMemory
            (needs_register self.old station.now || needs_window self.old station.now) self.old None
            (learnt (moved self.old station.now) station.now port number) result self.new }
    {
        self.routes.always_good();
        self.moves.always_placed();
        let is_counted = self.is_counted(station, port);
        if self.moves.room(station).is_err() {
            return Some(Alert::NoMemory);
        }
        let clock = self.clock;
        if self.routes.advertise(station, port, clock, number).is_err() {
            return Some(Alert::NoMemory);
        }
        self.moves.note(station, clock);
        if is_counted {
            self.count_new(port);
        }
        None
    }
}
