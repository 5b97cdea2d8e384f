//! The sweep: rules fire in the table's order until none is enabled, or the limit is reached.

ghost use Rattle.std.specs.Prelude.{◌≡◌, ◌≤◌, ◌<◌, length, map, slice_get, true, false};
ghost use Rattle.std.specs.List.{list_any};
ghost use Rattle.ether_wire.specs.Ports.{place_of_port};
ghost use Rattle.rstp_state.specs.Direct.{with_second, without_slot};
ghost use Rattle.rstp_run.specs.Events.{direct, Happens, IsAt, ports_at, sent_from, start};
ghost use Rattle.rstp_run.specs.Rules.{
  Tree,
  after,
  asks,
  guard,
  ports_after,
  root_after,
  timing_of,
};

use crate::count::Count;
use crate::event::{Effect, Event};
use crate::firing::{
    detection_is_enabled, fire_detection, fire_information, fire_migration, fire_receive,
    fire_topology, fire_transmit, information_is_enabled, migration_is_enabled, receive_is_enabled,
    topology_is_enabled, transmit_is_enabled,
};
use crate::rest::{is_busy, wants_selection};
use crate::rule::{MAIN, Part, Rule, SENDS};
use arrayvec::ArrayVec;
use bpdu_wire::Bpdu;
use ether_wire::place_of_port;
use rstp_roles::{fire_role, fire_state, role_is_enabled, state_is_enabled};
use rstp_state::{
    PortSettings, PortState, Root, Settings, Timing, ask_migration_check, clear_slot, pass_second,
    select_roles, set_enabled, start_ports, store,
};
use std::marker::Model;

/// A bridge that doesn't record whether it is settled.
#[derive(Drop)]
pub(crate) struct Engine {
    settings: Settings,
    root: Root,
    ports: ArrayVec<PortState, 64>,
}

impl Model for Engine {
    ghost Value = { Tree };

    ghost view = { λ b. record { settings = b.settings; root = b.root; ports = b.ports.items } };

    ghost invariant = { λ b. length b.ports.items ≤ 64 };
}

/// Returns the values of the bridge that the rules of a port read.
fn timing_of(settings: &Settings, root: &Root) -> Timing
    ensures { result ≡ timing_of settings.now root.now }
{
    Timing {
        hello: settings.hello,
        hold: settings.hold,
        max_age: root.times.max_age,
        forward_delay: root.times.forward_delay,
    }
}

/// Empties the slots of all ports.
fn clear_slots(ports: &mut [PortState])
    ensures { ports.new ≡ map without_slot ports.old }
{
    for port in ports.iter_mut() {
        clear_slot(port);
    }
}

/// Applies a second at every port.
fn pass_seconds(ports: &mut [PortState])
    ensures { ports.new ≡ map with_second ports.old }
{
    for port in ports.iter_mut() {
        pass_second(port);
    }
}

/// Applies the event's direct effect to the ports.
fn take_in(ports: &mut [PortState], event: Event)
    requires { IsAt event (length ports.old) }
    ensures { ports.new ≡ ports_at event ports.old }
{
    match event {
        Event::Bpdu(p, message) => store(&mut ports[place_of_port(p)], message),
        Event::Second => pass_seconds(ports),
        Event::PortUp(p) => set_enabled(&mut ports[place_of_port(p)], true),
        Event::PortDown(p) => set_enabled(&mut ports[place_of_port(p)], false),
        Event::Mcheck(p) => ask_migration_check(&mut ports[place_of_port(p)]),
    }
}

/// Replaces the content of the list by the messages in the slots.
fn list_sent(ports: &[PortState], out: &mut ArrayVec<(u8, Bpdu), 64>)
    requires { length ports.now ≤ 64 }
    ensures { out.new.items ≡ sent_from 1 ports.now }
{
    out.clear();
    for (i, port) in ports.iter().enumerate() {
        if let Some(bpdu) = port.slot {
            out.push(((i + 1) as u8, bpdu));
        }
    }
}

/// Returns `true` if the rule's guard holds at the port at place `p`.
fn is_enabled_in(
    settings: &Settings,
    root: &Root,
    ports: &[PortState],
    rule: Rule,
    p: usize,
) -> bool
    requires { p < length ports.now }
    ensures { result
        ≡ guard rule (record { settings = settings.now; root = root.now; ports = ports.now }) p }
{
    let port = &ports[p];
    match rule {
        Rule::Select => p == 0 && wants_selection(ports),
        Rule::Receive(rule) => receive_is_enabled(port, rule),
        Rule::Migration(rule) => migration_is_enabled(port, rule),
        Rule::Detection(rule) => detection_is_enabled(port, rule),
        Rule::Information(rule) => information_is_enabled(port, rule),
        Rule::Role(rule) => role_is_enabled(&timing_of(settings, root), ports, rule, p),
        Rule::State(rule) => state_is_enabled(port, rule),
        Rule::Topology(rule) => topology_is_enabled(port, rule),
        Rule::Transmit(rule) => transmit_is_enabled(&timing_of(settings, root), port, rule),
    }
}

/// Fires the rule at the port at place `p`.
fn fire_in(settings: &Settings, root: &mut Root, ports: &mut [PortState], rule: Rule, p: usize)
    requires there { p < length ports.old }
    requires guard { guard rule
        (record { settings = settings.now; root = root.old; ports = ports.old }) p ≡ true }
    ensures root { root.new
        ≡ root_after rule (record { settings = settings.now; root = root.old; ports = ports.old }) }
    ensures ports { ports.new ≡ ports_after rule
        (record { settings = settings.now; root = root.old; ports = ports.old }) p }
{
    let timing = timing_of(settings, root);
    match rule {
        Rule::Select => *root = select_roles(settings, ports),
        Rule::Receive(rule) => fire_receive(&mut ports[p], rule),
        Rule::Migration(rule) => fire_migration(&mut ports[p], rule),
        Rule::Detection(rule) => fire_detection(&mut ports[p], rule),
        Rule::Information(rule) => fire_information(&mut ports[p], rule),
        Rule::Role(rule) => fire_role(&timing, ports, rule, p),
        Rule::State(rule) => fire_state(&mut ports[p], rule),
        Rule::Topology(rule) => fire_topology(&timing, ports, rule, p),
        Rule::Transmit(rule) => fire_transmit(&timing, &mut ports[p], rule),
    }
}

impl Engine {
    ghost use Rattle.rstp_run.specs.Events.{IsPort};
    ghost use Rattle.rstp_run.specs.Inner.Rest.{is_busy};
    ghost use Rattle.rstp_run.specs.Runs.{AreOffAt, AreOffBelow, AreOff, IsSettled};
    ghost use Rattle.rstp_run.specs.Inner.Runs.{done, Goes, Sweeps, IsOff, rules_of, swept_on};
    ghost use Rattle.rstp_run.specs.Sweep.{passes, tries, tries_all, tries_below};

    /// Returns a bridge before its first event.
    pub(crate) fn new(settings: Settings, ports: &[PortSettings]) -> Self
        requires { length ports.now ≤ 64 }
        ensures { result ≡ start settings ports.now }
    {
        Engine {
            settings,
            root: Root::own(&settings),
            ports: start_ports(&settings, ports),
        }
    }

    /// Returns the number of ports.
    pub(crate) fn len(&self) -> usize
        ensures value { result ≡ length self.now.ports }
        ensures few { result ≤ 64 }
    {
        self.ports.len()
    }

    /// Returns `true` if the rule's guard holds at the port at place `p`.
    fn is_enabled(&self, rule: Rule, p: usize) -> bool
        requires { p < length self.now.ports }
        ensures { result ≡ guard rule self.now p }
    {
        is_enabled_in(&self.settings, &self.root, &self.ports, rule, p)
    }

    /// Fires the rule at the port at place `p`.
    fn fire(&mut self, rule: Rule, p: usize)
        requires there { p < length self.old.ports }
        requires guard { guard rule self.old p ≡ true }
        ensures { self.new ≡ after rule self.old p }
    {
        fire_in(&self.settings, &mut self.root, &mut self.ports, rule, p);
    }

    /// Fires the rule at the port, if it is enabled and the limit is not reached.
    fn try_fire(&mut self, rule: Rule, p: usize, count: &mut Count)
        requires there { p < length self.old.ports }
        requires bit { p < 64 }
        requires within { count.old.fired ≤ count.old.limit }
        ensures { Sweeps (tries rule p) (IsOff rule p) self.old count.old self.new count.new }
    {
        if count.fired < count.limit && self.is_enabled(rule, p) {
            self.fire(rule, p);
            count.add(rule, p);
        }
    }

    /// Tries each rule once at the port, in their order.
    fn try_port(&mut self, rules: &[Rule], p: usize, count: &mut Count)
        requires there { p < length self.old.ports }
        requires bit { p < 64 }
        requires within { count.old.fired ≤ count.old.limit }
        ensures { Sweeps (tries_all rules.now p) (AreOffAt rules.now p)
            self.old count.old self.new count.new }
    {
        for rule in rules {
            self.try_fire(*rule, p, count);
        }
    }

    /// Returns `true` if a rule of the part may be enabled at the port at place `p`.
    fn is_busy(&self, part: Part, p: usize) -> bool
        requires { p < length self.now.ports }
        ensures { result ≡ is_busy part self.now.ports p }
    {
        is_busy(part, &self.ports, p)
    }

    /// Tries each rule of the part once at the port, if one may be enabled.
    fn try_part(&mut self, part: Part, p: usize, count: &mut Count)
        requires there { p < length self.old.ports }
        requires bit { p < 64 }
        requires within { count.old.fired ≤ count.old.limit }
        ensures { Sweeps (tries_all (rules_of part) p) (AreOffAt (rules_of part) p)
            self.old count.old self.new count.new }
    {
        if !self.is_busy(part, p) {
            return;
        }
        match part {
            Part::Main => self.try_port(&MAIN, p, count),
            Part::Sends => self.try_port(&SENDS, p, count),
        }
    }

    /// Tries each rule of the part once at each port.
    fn pass(&mut self, part: Part, count: &mut Count)
        requires { count.old.fired ≤ count.old.limit }
        ensures { Sweeps (tries_below (rules_of part) (length self.old.ports))
            (AreOff (rules_of part)) self.old count.old self.new count.new }
    {
        for p in 0..self.len() {
            self.try_part(part, p, count);
        }
    }

    /// Repeats passes until one fires nothing, or the limit is reached.
    fn settle(&mut self, part: Part, count: &mut Count)
        requires { count.old.fired ≤ count.old.limit }
        ensures goes { Goes (passes (rules_of part)) done self.old count.old self.new count.new }
        ensures off { count.new.fired < count.new.limit → AreOff (rules_of part) self.new }
        ensures idle { count.new.fired ≡ count.old.fired → self.new ≡ self.old }
        ensures ports { length self.new.ports ≡ length self.old.ports }
    {
        'passes: loop {
            let before = count.fired;
            self.pass(part, count);
            if count.fired == before || count.fired == count.limit {
                return;
            }
        }
    }

    /// Returns `true` if one of these rules is enabled at the port at place `p`.
    fn has_enabled_at(&self, rules: &[Rule], p: usize) -> bool
        requires { p < length self.now.ports }
        ensures { result ≡ list_any (λ rule. guard rule self.now p) rules.now }
    {
        rules.iter().any(|rule| self.is_enabled(*rule, p))
    }

    /// Returns `true` if one of these rules is enabled at any port.
    fn has_enabled(&self, rules: &[Rule]) -> bool
        ensures off { result ≡ false → AreOff rules.now self.now }
        ensures on { result ≡ true → ¬ AreOff rules.now self.now }
    {
        for p in 0..self.len() {
            if self.has_enabled_at(rules, p) {
                return true;
            }
        }
        false
    }

    /// Returns `true` if no rule is enabled.
    pub(crate) fn is_settled(&self) -> bool
        ensures yes { result ≡ true → IsSettled self.now }
        ensures no { result ≡ false → ¬ IsSettled self.now }
    {
        !self.has_enabled(&MAIN) && !self.has_enabled(&SENDS)
    }

    /// Fires rules until none is enabled, or the limit is reached. Returns `true` if the bridge is
    /// settled.
    fn run(&mut self, count: &mut Count) -> bool
        requires { count.old.fired ≤ count.old.limit }
        ensures goes { Goes swept_on done self.old count.old self.new count.new }
        ensures yes { result ≡ true → IsSettled self.new }
        ensures no { result ≡ false → ¬ IsSettled self.new }
        ensures unsettled { result ≡ false → count.new.fired ≡ count.new.limit }
        ensures ports { length self.new.ports ≡ length self.old.ports }
    {
        'rounds: loop {
            self.settle(Part::Main, count);
            let before = count.fired;
            self.settle(Part::Sends, count);
            if count.fired == count.limit {
                return self.is_settled();
            }
            if count.fired == before {
                return true;
            }
        }
    }

    /// Applies the event's direct effect.
    fn start(&mut self, event: Event)
        requires { IsAt event (length self.old.ports) }
        ensures { self.new ≡ direct event self.old }
    {
        clear_slots(&mut self.ports);
        take_in(&mut self.ports, event);
    }

    /// Processes the event with at most `limit` firings. Replaces the content of `out` by the
    /// messages to send.
    pub(crate) fn event_within(
        &mut self,
        event: Event,
        limit: usize,
        out: &mut ArrayVec<(u8, Bpdu), 64>,
    ) -> Effect
        requires { IsAt event (length self.old.ports) }
        ensures happens { Happens event limit self.old self.new result.settled result.flush }
        ensures yes { result.settled ≡ true → IsSettled self.new }
        ensures no { result.settled ≡ false → ¬ IsSettled self.new }
        ensures out { out.new.items ≡ sent_from 1 self.new.ports }
        ensures ports { length self.new.ports ≡ length self.old.ports }
    {
        self.start(event);
        let mut count = Count {
            fired: 0,
            limit,
            flush: 0,
        };
        let settled = self.run(&mut count);
        list_sent(&self.ports, out);
        Effect {
            settled,
            flush: count.flush,
        }
    }

    /// Returns the port with this number.
    pub(crate) fn port(&self, p: u8) -> &PortState
        requires { IsPort p (length self.now.ports) }
        ensures { slice_get self.now.ports (place_of_port p) ≡ Some result.now }
    {
        &self.ports[place_of_port(p)]
    }
}
