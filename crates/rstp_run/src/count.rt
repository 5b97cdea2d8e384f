//! The number of rules that fired in an event, and the flushed ports.

ghost use Rattle.std.specs.Prelude.{◌≡◌, ◌<◌};

use crate::rule::Rule;
use ether_wire::with_port;

/// The number of firings, its limit, and the flushed ports.
#[derive(Clone, Copy)]
pub(crate) struct Count {
    pub(crate) fired: usize,
    pub(crate) limit: usize,
    pub(crate) flush: u64,
}

impl Count {
    ghost use Rattle.rstp_run.specs.Inner.Runs.{counted};

    /// Counts one more firing, of this rule at the port at place `p`.
    pub(crate) fn add(&mut self, rule: Rule, p: usize)
        requires bit { p < 64 }
        requires below { self.old.fired < self.old.limit }
        ensures { self.new ≡ counted self.old rule p }
    {
        self.fired += 1;
        if rule.is_flush() {
            self.flush = with_port(self.flush, (p + 1) as u8);
        }
    }
}
