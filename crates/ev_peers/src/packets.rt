//! Sources of the datagrams that are sent over a link.
ghost use Rattle.std.specs.Prelude.{◌≡◌, ◌≤◌, ◌∷◌, [], Option, List, length, IfSome};
ghost use Rattle.ev_links.specs.Coming.{behind};
ghost use Rattle.ev_links.specs.Links.{Packet};
ghost use Rattle.ev_links.specs.Line.{handed};

use crate::shared_line::SharedLine;
use ether_wire::Addr;
use ev_links::PromptOut;
use std::sync::Wait;
use std::time::Clock;

/// A source of datagrams that are to be sent over a link.
pub trait PacketsIn {
    /// The history of this source, in order: each datagram, and `None` for the end. A source may
    /// have no history.
    ghost came: { Self → Option (List (Option Packet)) };

    /// Waits for the next datagram, of at most 9,026 octets, and copies it to the front of the
    /// buffer. Returns its destination address and its number of octets, or `None` at the end.
    fn next(&mut self, buffer: &mut [u8]) -> Option<(Addr, usize)>
        requires { 9026 ≤ length buffer.old }
        ensures fits { IfSome result (λ r. r.1 ≤ length buffer.new) }
        ensures came { came self.new ≡ behind (came self.old) (handed result buffer.new ∷ []) };
}

/// The datagrams that wait on a line. Clauses can't refer to a value under a lock, so this source
/// has no history.
#[derive(Drop)]
pub(crate) struct LineBox<'x, K, R> {
    pub(crate) rt: &'x R,
    pub(crate) line: &'x SharedLine<K>,
}

impl<K: PromptOut, R: Wait + Clock> PacketsIn for LineBox<'_, K, R> {
    ghost use Rattle.std.specs.Prelude.{None};

    ghost came = { λ b. None };

    fn next(&mut self, buffer: &mut [u8]) -> Option<(Addr, usize)> {
        self.line.next(self.rt, buffer)
    }
}
