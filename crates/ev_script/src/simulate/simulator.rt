//! Plays commands on a fabric, one after the other.
ghost use Rattle.std.specs.Prelude.{◌≡◌, [], ◌∷◌, ◌++◌, length, true, false, ℕ};
ghost use Rattle.ether_wire.specs.Ends.{Puts};
ghost use Rattle.ev_fabric.specs.Fabric.{nth};
ghost use Rattle.ev_report.specs.Ends.{Tells};
ghost use Rattle.ev_script.specs.Inner.Printing.{seen_text};
ghost use Rattle.ev_script.specs.Printing.{shown_text, step_text, second_text, announcement_text};
ghost use Rattle.ev_script.specs.Simulation.{port_number, is_out_of_memory, ShowsPort, ShowsPortOf, report_text};
ghost use Rattle.ev_script.specs.Views.{view_text};

use crate::script::{Command, Hex, Mode, Question, cut_line, parse};
use crate::simulate::echo::put_shown;
use crate::simulate::print::{
    put_bpdus, put_number, put_port, put_refusal, put_reply, put_report, put_words,
};
use crate::simulate::viewing::{edge_of, put_view};
use ether_wire::{Addr, Device, Out};
use ev_edge::{Edge, EdgeRefusal, Reply};
use ev_fabric::{Fabric, FabricRefusal, LocalEvent, Step};
use rstp_state::PortState;

/// The number of the refusal and of the alert that report refused memory.
const NO_MEMORY: u8 = 15;

/// The first bad line of a script.
#[derive(Clone, Copy, Debug)]
pub(crate) struct BadLine<'a> {
    /// Its number; the script's first line has 1.
    pub(crate) number: u64,
    /// Its octets, without the line feed.
    pub(crate) line: &'a [u8],
}

/// A fabric that is played.
#[derive(Drop)]
pub(crate) struct Simulator {
    fabric: Fabric,
    /// Whether a step was refused memory.
    is_out_of_memory: bool,
    /// Whether no output was lost.
    is_told: bool,
}

/// Returns a port's number, in an octet. A number above 255 becomes 255: there are at most 64
/// ports.
pub fn port_number(port: u64) -> u8
    ensures { result ≡ port_number port }
{
    if port <= 255 { port as u8 } else { 255 }
}

/// Returns `true` if a step was refused memory, or did less for want of memory.
fn is_out_of_memory(answer: &Result<Reply, FabricRefusal>) -> bool
    ensures { result ≡ is_out_of_memory answer.now }
{
    match answer {
        Ok(reply) => match reply.alert {
            Some(alert) => alert.number() == NO_MEMORY,
            None => false,
        },
        Err(refusal) => refusal.number() == NO_MEMORY,
    }
}

/// Prints the result of a step.
fn put_answer<W: Out>(
    out: &mut W,
    edge: u64,
    answer: &Result<Reply, FabricRefusal>,
) -> Result<(), Device>
    ensures { Puts (W.end out.old) (W.end out.new) (step_text edge answer.now) result }
{
    match answer {
        Ok(reply) => put_reply(out, edge, reply),
        Err(refusal) => put_refusal(out, edge, refusal),
    }
}

/// Prints the result of a second, the first one (0) or a later one. Prints a refusal only for the
/// first one.
fn put_second<W: Out>(
    out: &mut W,
    edge: u64,
    turn: u64,
    answer: &Result<Reply, FabricRefusal>,
) -> Result<(), Device>
    ensures { Puts (W.end out.old) (W.end out.new) (second_text edge turn answer.now) result }
{
    match answer {
        Ok(reply) => put_bpdus(out, edge, reply.bpdus.as_slice()),
        Err(refusal) if turn == 0 => put_refusal(out, edge, refusal),
        Err(_) => Ok(()),
    }
}

/// Prints the number in the pool of the announced update, if one was announced. It is the pool's
/// last update.
fn put_announced<W: Out>(
    out: &mut W,
    edge: u64,
    last: usize,
    answer: &Result<Reply, FabricRefusal>,
) -> Result<(), Device>
    ensures { Puts (W.end out.old) (W.end out.new) (announcement_text edge last answer.now) result }
{
    match answer {
        Ok(reply) => match reply.announced {
            Some(_) => put_number(out, edge, b" pool ", last as u64),
            None => put_words(out, edge, b" none\n"),
        },
        Err(refusal) => put_refusal(out, edge, refusal),
    }
}

/// Returns the role and state of an edge's port in the spanning tree, and whether it passes
/// frames.
fn port_of(edge: &Edge, port: u8) -> Result<(PortState, bool), FabricRefusal>
    ensures { (e : ℕ) → ShowsPort e port edge.now.tree (seen_text e port result) }
{
    let bridge = edge.bridge();
    if port == 0 || usize::from(port) > bridge.len() {
        return Err(FabricRefusal::Edge(ev_edge::Refusal::Edge(EdgeRefusal::NoSuchPort)));
    }
    Ok((*bridge.port(port), bridge.passes(port)))
}

/// Returns the role and state of a port in the spanning tree, or a refusal if there is no edge of
/// this number.
fn port_at(fabric: &Fabric, edge: u64, port: u8) -> Result<(PortState, bool), FabricRefusal>
    ensures { ShowsPortOf edge port (nth fabric.now.edges edge) (seen_text edge port result) }
{
    match edge_of(fabric, edge) {
        Some(found) => port_of(found, port),
        None => Err(FabricRefusal::NoSuchEdge),
    }
}

/// Prints the role and state of a port, or a refusal.
fn put_seen<W: Out>(
    out: &mut W,
    edge: u64,
    port: u8,
    seen: &Result<(PortState, bool), FabricRefusal>,
) -> Result<(), Device>
    ensures { Puts (W.end out.old) (W.end out.new) (seen_text edge port seen.now) result }
{
    match seen {
        Ok((state, passes)) => put_port(out, edge, port, state, *passes),
        Err(refusal) => put_refusal(out, edge, refusal),
    }
}

/// Prints the report of an edge's table, or a refusal if there is no edge of this number.
fn put_report_of<W: Out>(fabric: &Fabric, edge: u64, out: &mut W) -> Result<(), Device>
    ensures { Puts (W.end out.old) (W.end out.new)
        (report_text edge (nth fabric.now.edges edge)) result }
{
    match edge_of(fabric, edge) {
        Some(found) => put_report(out, found.table()),
        None => put_refusal(out, edge, &FabricRefusal::NoSuchEdge),
    }
}

impl Simulator {
    ghost use Rattle.ev_fabric.specs.declared.step.Step.TheVariants.{Local};
    ghost use Rattle.ev_fabric.specs.declared.step.LocalEvent.TheVariants.{Second};
    ghost use Rattle.ev_script.specs.Script.{command_of, octets_of, second, frame, tunnel, announce, port as shown_port, report};
    ghost use Rattle.ev_script.specs.Inner.Playing.{Makes, MakesOne, Performs, PlaysLine, PlaysTo};

    /// Returns a simulator that has made no step yet.
    pub(crate) fn new(fabric: Fabric) -> Simulator
        ensures fabric { result.fabric ≡ fabric }
        ensures fed { result.is_out_of_memory ≡ false }
        ensures told { result.is_told ≡ true }
    {
        Simulator {
            fabric,
            is_out_of_memory: false,
            is_told: true,
        }
    }

    /// Returns `true` if a step was refused memory.
    pub(crate) fn is_out_of_memory(&self) -> bool
        ensures { result ≡ self.now.is_out_of_memory }
    {
        self.is_out_of_memory
    }

    /// Returns `true` if no output was lost.
    pub(crate) fn is_told(&self) -> bool
        ensures { result ≡ self.now.is_told }
    {
        self.is_told
    }

    /// Makes a step of the fabric.
    fn step(&mut self, step: &Step<'_>) -> Result<Reply, FabricRefusal>
        ensures made { Makes ((step.now, result) ∷ []) self.old self.new }
        ensures told { self.new.is_told ≡ self.old.is_told }
    {
        let answer = self.fabric.step(step);
        let is_refused = is_out_of_memory(&answer);
        self.is_out_of_memory = self.is_out_of_memory || is_refused;
        answer
    }

    /// Makes a step, and prints its result.
    fn single<W: Out>(&mut self, edge: u64, step: &Step<'_>, out: &mut W)
        ensures { MakesOne step.now (step_text edge) self.old self.new
            (W.end out.old) (W.end out.new) }
    {
        let answer = self.step(step);
        self.is_told = self.is_told && put_answer(out, edge, &answer).is_ok();
    }

    /// Lets a second pass at an edge, the first one (0) of a command or a later one.
    fn second<W: Out>(&mut self, edge: u64, turn: u64, out: &mut W)
        ensures { MakesOne (Local edge Second) (second_text edge turn) self.old self.new
            (W.end out.old) (W.end out.new) }
    {
        let answer = self.step(&Step::Local(edge as usize, LocalEvent::Second));
        self.is_told = self.is_told && put_second(out, edge, turn, &answer).is_ok();
    }

    /// Lets `seconds` seconds pass at an edge.
    fn seconds<W: Out>(&mut self, edge: u64, seconds: u64, out: &mut W)
        ensures { Performs edge (second seconds) self.old self.new (W.end out.old) (W.end out.new) }
    {
        for turn in 0..seconds {
            self.second(edge, turn, out);
        }
    }

    /// Announces the oldest pending update of an edge, which puts it into the pool.
    fn announce<W: Out>(&mut self, edge: u64, out: &mut W)
        ensures { Performs edge announce self.old self.new (W.end out.old) (W.end out.new) }
    {
        let answer = self.step(&Step::Announce(edge as usize));
        let last = self.fabric.pool().len();
        self.is_told = self.is_told && put_announced(out, edge, last, &answer).is_ok();
    }

    /// Receives octets at a port.
    fn frame<W: Out>(&mut self, edge: u64, port: u64, hex: Hex<'_>, out: &mut W)
        ensures { Performs edge (frame port (octets_of hex.entry.digits.now)) self.old self.new
            (W.end out.old) (W.end out.new) }
    {
        let octets = hex.octets();
        let event = LocalEvent::Frame(port_number(port), octets.as_slice());
        self.single(edge, &Step::Local(edge as usize, event), out);
    }

    /// Receives a datagram from another edge.
    fn tunnel<W: Out>(&mut self, edge: u64, from: Addr, hex: Hex<'_>, out: &mut W)
        ensures { Performs edge (tunnel from (octets_of hex.entry.digits.now)) self.old self.new
            (W.end out.old) (W.end out.new) }
    {
        let octets = hex.octets();
        let event = LocalEvent::TunnelFrame(from, octets.as_slice());
        self.single(edge, &Step::Local(edge as usize, event), out);
    }

    /// Prints the role and state of a port in the spanning tree.
    fn port<W: Out>(&mut self, edge: u64, port: u64, out: &mut W)
        ensures { Performs edge (shown_port port) self.old self.new
            (W.end out.old) (W.end out.new) }
    {
        let number = port_number(port);
        let seen = port_at(&self.fabric, edge, number);
        self.is_told = self.is_told && put_seen(out, edge, number, &seen).is_ok();
    }

    /// Prints the report of an edge's table.
    fn report<W: Out>(&mut self, edge: u64, out: &mut W)
        ensures { Performs edge report self.old self.new (W.end out.old) (W.end out.new) }
    {
        self.is_told = self.is_told && put_report_of(&self.fabric, edge, out).is_ok();
    }

    /// Does a command at an edge, and prints its results.
    fn perform<W: Out>(&mut self, edge: u64, command: &Command<'_>, out: &mut W)
        ensures { Performs edge (command_of command.now) self.old self.new
            (W.end out.old) (W.end out.new) }
    {
        match command {
            Command::Up(port) => {
                let event = LocalEvent::PortUp(port_number(*port));
                self.single(edge, &Step::Local(edge as usize, event), out);
            }
            Command::Down(port) => {
                let event = LocalEvent::PortDown(port_number(*port));
                self.single(edge, &Step::Local(edge as usize, event), out);
            }
            Command::Mcheck(port) => {
                let event = LocalEvent::Mcheck(port_number(*port));
                self.single(edge, &Step::Local(edge as usize, event), out);
            }
            Command::Second(seconds) => self.seconds(edge, *seconds, out),
            Command::Frame(port, hex) => self.frame(edge, *port, *hex, out),
            Command::Tunnel(from, hex) => self.tunnel(edge, *from, *hex, out),
            Command::Pin(station, port) => {
                let event = LocalEvent::Pin(*station, port_number(*port));
                self.single(edge, &Step::Local(edge as usize, event), out);
            }
            Command::Unpin(station) => {
                let event = LocalEvent::Unpin(*station);
                self.single(edge, &Step::Local(edge as usize, event), out);
            }
            Command::Thaw(station) => {
                let event = LocalEvent::Thaw(*station);
                self.single(edge, &Step::Local(edge as usize, event), out);
            }
            Command::Announce => self.announce(edge, out),
            Command::Deliver(update) => {
                self.single(edge, &Step::Deliver(edge as usize, *update as usize), out);
            }
            Command::Port(port) => self.port(edge, *port, out),
            Command::Report => self.report(edge, out),
            Command::Restart(incarnation) => self.single(
                edge,
                &Step::Restart(edge as usize, *incarnation),
                out,
            ),
            Command::Away(other) => {
                let event = LocalEvent::Away(*other);
                self.single(edge, &Step::Local(edge as usize, event), out);
            }
            Command::Back(other) => {
                let event = LocalEvent::Back(*other);
                self.single(edge, &Step::Local(edge as usize, event), out);
            }
        }
    }

    /// Prints the line of a command or a query if the mode prints lines.
    fn show<W: Out>(&mut self, mode: Mode, line: &[u8], out: &mut W)
        ensures made { Makes [] self.old self.new }
        ensures told { Tells (W.end out.old) (W.end out.new) self.old.is_told self.new.is_told
            (shown_text mode line.now) }
    {
        self.is_told = self.is_told && put_shown(out, mode, line).is_ok();
    }

    /// Prints the answer to a query. No step is made.
    fn view<W: Out>(&mut self, question: &Question, out: &mut W)
        ensures made { Makes [] self.old self.new }
        ensures told { Tells (W.end out.old) (W.end out.new) self.old.is_told self.new.is_told
            (view_text self.old.fabric question.now) }
    {
        self.is_told = self.is_told && put_view(out, &self.fabric, question).is_ok();
    }

    /// Prints the line of a query, and the answer. No step is made.
    fn answer<W: Out>(&mut self, mode: Mode, line: &[u8], question: &Question, out: &mut W)
        ensures made { Makes [] self.old self.new }
        ensures told { Tells (W.end out.old) (W.end out.new) self.old.is_told self.new.is_told
            (shown_text mode line.now ++ view_text self.old.fabric question.now) }
    {
        self.show(mode, line, out);
        self.view(question, out);
    }

    /// Runs a line. Returns `false` if it is a bad one.
    fn line<W: Out>(&mut self, mode: Mode, line: &[u8], out: &mut W) -> bool
        ensures { PlaysLine mode line.now self.old self.new
            (W.end out.old) (W.end out.new) result }
    {
        if let Some(question) = mode.question(line) {
            self.answer(mode, line, &question, out);
            return true;
        }
        if mode.skips(line) {
            return true;
        }
        match parse(line) {
            None => false,
            Some((edge, command)) => {
                self.show(mode, line, out);
                self.perform(edge, &command, out);
                true
            }
        }
    }

    /// Runs the lines of a script up to its end or its first bad line, which it returns.
    pub(crate) fn play<'a, W: Out>(
        &mut self,
        mode: Mode,
        script: &'a [u8],
        out: &mut W,
    ) -> Option<BadLine<'a>>
        ensures { PlaysTo mode script.now self.old self.new
            (W.end out.old) (W.end out.new) result }
    {
        let mut rest = script;
        let mut number = 0u64;
        'lines: while !rest.is_empty() {
            let (line, after) = cut_line(rest);
            number += 1;
            if !self.line(mode, line, out) {
                return Some(BadLine { number, line });
            }
            rest = after;
        }
        None
    }
}
