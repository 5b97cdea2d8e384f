//! The datagrams that the system dropped at the links of a run, as a console shows them while the
//! edges run.
ghost use Rattle.std.specs.Prelude.{◌≡◌, option_map, map, IfOk};
ghost use Rattle.ev_run.specs.Inner.SystemDrops.{drops_in, drops_at};
ghost use Rattle.ev_run.specs.Inner.Sockets.{bound_at, local_end};

use crate::bound::{Cable, Sockets};
use crate::system_drops::{UdpTable, reported_at};
use ev_config::Endpoint;
use ev_console::SystemDrops;
use std::alloc::{AllocError, Global};

/// Returns the drops that the system's table of UDP sockets reports at a socket, or `None` if the
/// table couldn't be read or has no row of that socket.
fn drops_in(table: &Option<Vec<u8>>, at: Endpoint) -> Option<u64>
    ensures { result ≡ drops_in (option_map (λ text. text.items) table.now) at }
{
    match table {
        Some(text) => reported_at(text.as_slice(), at),
        None => None,
    }
}

/// Returns the drops that the system's table reports at a port's cable: `None` for a device.
fn drops_at(table: &Option<Vec<u8>>, cable: &Cable) -> Option<u64>
    ensures { result ≡ drops_at (option_map (λ text. text.items) table.now) (local_end cable.now) }
{
    match cable {
        Cable::Socket(_, local, _) => drops_in(table, *local),
        Cable::Tap(_) => None,
    }
}

/// Returns the drops that the system's table reports at each link of an edge, the tunnel's first.
fn drops_of(
    alloc: Global,
    table: &Option<Vec<u8>>,
    sockets: &Sockets,
) -> Result<Vec<Option<u64>>, AllocError>
    ensures { IfOk result (λ drops. drops.items
        ≡ map (drops_at (option_map (λ text. text.items) table.now)) (bound_at sockets.now)) }
{
    let ports = sockets.ports.as_slice();
    let mut drops = Vec::with_capacity(alloc, ports.len() + 1)?;
    drops.push_reserved(drops_in(table, sockets.at));
    for cable in ports {
        drops.push_reserved(drops_at(table, cable));
    }
    Ok(drops)
}

/// The sockets of all edges, and the runtime by which the system's table is read.
#[derive(Drop)]
pub(crate) struct SocketDrops<'x, R> {
    /// The runtime.
    pub(crate) rt: &'x R,
    /// The sockets of each edge.
    pub(crate) sockets: &'x [Sockets],
}

impl<R: UdpTable> SystemDrops for SocketDrops<'_, R> {
    ghost use Rattle.std.specs.Prelude.{◌≡◌, List, Option, ℕ, map};
    ghost use Rattle.ev_run.specs.Inner.SystemDrops.{drops_of_edge};
    ghost use Rattle.ev_run.specs.Inner.Sockets.{bound_at};

    ghost reported = { λ system edge drops. (table : Option (List ℕ)) × R.shows system.rt.now table
        × (drops ≡ drops_of_edge table (map bound_at system.sockets.now) edge) };

    fn of_edge(&self, alloc: Global, edge: u64) -> Result<Vec<Option<u64>>, AllocError> {
        let table = self.rt.udp_table(alloc);
        match self.sockets.get(edge.saturating_sub(1) as usize) {
            Some(sockets) => drops_of(alloc, &table, sockets),
            None => Ok(Vec::new(alloc)),
        }
    }
}
