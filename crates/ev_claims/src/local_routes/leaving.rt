//! Stations that leave an edge by themselves: those not heard for long, and those behind ports
//! whose entries are to be forgotten.
ghost use Rattle.std.specs.Prelude.{◌≡◌, ◌<◌, slice_get};
ghost use Rattle.mac_arena.specs.ListsName.{ListsName};
ghost use Rattle.mac_arena.specs.Laws.{unpinned_on};
ghost use Rattle.ev_claims.specs.LocalRoutes.{after_removals};
ghost use Rattle.ev_claims.specs.Leaving.{after_ageing, after_flush, due_in};
ghost use Rattle.ev_claims.specs.Inner.Leaving.{AreKept};

use crate::local_routes::LocalRoutes;
use ether_wire::next_port;
use mac_arena::Station;

impl LocalRoutes {
    /// The unpinned stations that were last heard at this second or before go and are withdrawn,
    /// the one heard longest ago first. It takes no memory.
    pub fn age(&mut self, limit: u64)
        ensures { self.new ≡ after_ageing self.old limit }
    {
        while let Some(station) = self.oldest_due(limit) {
            self.remove(&station);
        }
    }

    /// The unpinned stations behind the ports of a set go and are withdrawn, port by port, in the
    /// order in which they came to each. It takes no memory.
    pub fn flush(&mut self, ports: u64)
        ensures { self.new ≡ after_flush self.old ports }
    {
        let mut after = 0;
        while let Some(port) = next_port(ports, after) {
            self.flush_port(port);
            after = port;
        }
    }

    /// The unpinned stations behind a port go, in the order in which they came to it. Those behind
    /// other ports keep their order.
    fn flush_port(&mut self, port: u8)
        requires { 0 < port }
        ensures after { self.new ≡ after_removals self.old (unpinned_on self.old.learned port) }
        ensures others { AreKept self.old.learned self.new.learned port }
    {
        while let Some(station) = self.first_unpinned(port) {
            self.remove(&station);
        }
    }

    /// Returns the unpinned station that came to the port first, if there is this port.
    fn first_unpinned(&self, port: u8) -> Option<Station>
        requires { 0 < port }
        ensures first { result ≡ slice_get (unpinned_on self.now.learned port) 0 }
        ensures lists { ListsName self.now.learned }
    {
        self.always_good();
        let ports = self.ports.as_slice();
        if port as usize > ports.len() {
            return None;
        }
        self.learned.first_of(port)
    }

    /// The station heard longest ago, if it is due.
    fn oldest_due(&self, limit: u64) -> Option<Station>
        ensures first { result ≡ slice_get (due_in self.now.learned limit) 0 }
        ensures lists { ListsName self.now.learned }
    {
        self.always_good();
        let Some(station) = self.learned.oldest() else {
            return None
        };
        let Some(entry) = self.learned.look(&station) else {
            return None
        };
        if entry.last > limit {
            return None;
        }
        Some(station)
    }
}
