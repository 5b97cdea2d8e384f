//! Laws on decisions, each a function that does nothing and whose contract is the law.
ghost use Rattle.std.specs.Prelude.{◌≡◌, ◌≢◌, ℕ, Contains, [], Some, true, false};
ghost use Rattle.std.specs.Option.{ForSome};
ghost use Rattle.route_join.specs.Owner.{owner};
ghost use Rattle.ev_tunnel.specs.declared.decision.Source.TheVariants.{Port, Tunnel};
ghost use Rattle.ev_tunnel.specs.declared.place.Place.TheVariants.{Everywhere};
ghost use Rattle.ether_wire.specs.Ports.{IsPort, has_port};
ghost use Rattle.ev_tunnel.specs.Place.{place_of};
ghost use Rattle.ev_tunnel.specs.Decision.{is_up, local_for, remote_for, remote_up};
ghost use Rattle.ev_tunnel.specs.Laws.{IsOneCopy, ArePassing, AreOthers};

use crate::decision::{Forwarding, Source};
use ether_wire::{Addr, Mac, Vni};
use route_join::Table;

/// A frame from a tunnel never goes into a tunnel.
pub fn never_from_tunnel_to_tunnel(
    destination: Mac,
    vni: Vni,
    entry: Option<u8>,
    table: &Table,
    own: Addr,
)
    ensures { remote_for table.now vni destination entry own Tunnel ≡ [] }
{}

/// No frame goes to an edge that is away.
pub fn never_to_an_edge_that_is_away(frame: Forwarding<'_>)
    ensures { (o : ℕ) → Contains
        (remote_up frame.entry.away.now.items frame.entry.table.now frame.entry.vni
        frame.entry.destination frame.entry.learnt frame.entry.own frame.entry.from) o
        → is_up frame.entry.away.now.items o ≡ true }
{}

/// A frame never goes back out of the port that it came from.
pub fn never_back(
    destination: Mac,
    vni: Vni,
    port: u8,
    entry: Option<u8>,
    table: &Table,
    own: Addr,
    members: u64,
    passing: u64,
)
    requires { IsPort port }
    ensures { has_port (local_for table.now vni destination entry own (Port port) members passing)
        port ≡ false }
{}

/// Only members that pass get a frame, if destinations are learnt only at members.
pub fn members_that_pass(
    destination: Mac,
    vni: Vni,
    from: Source,
    entry: Option<u8>,
    table: &Table,
    own: Addr,
    members: u64,
    passing: u64,
)
    requires { ForSome entry (λ q. has_port members q ≡ true) }
    ensures { ArePassing members passing
        (local_for table.now vni destination entry own from members passing) }
{}

/// A frame for an individual address that is learnt or owned by another edge goes to at most one
/// place: to the port where it was learnt, or to the edge that owns it.
pub fn known_goes_to_one_place(
    destination: Mac,
    vni: Vni,
    from: Source,
    entry: Option<u8>,
    table: &Table,
    own: Addr,
    members: u64,
    passing: u64,
)
    requires { place_of destination entry (owner table.now vni destination) own ≢ Everywhere }
    ensures port { (p : ℕ)
        → has_port (local_for table.now vni destination entry own from members passing) p ≡ true
        → entry ≡ Some p }
    ensures edge { (o : ℕ) → Contains (remote_for table.now vni destination entry own from) o
        → owner table.now vni destination ≡ Some o }
    ensures one { IsOneCopy (local_for table.now vni destination entry own from members passing)
        (remote_for table.now vni destination entry own from) }
{}

/// A frame from a port that is flooded goes to exactly the other edges that advertise the network's
/// flood list, in ascending order.
pub fn others_that_advertise(
    destination: Mac,
    vni: Vni,
    port: u8,
    entry: Option<u8>,
    table: &Table,
    own: Addr,
)
    requires { place_of destination entry (owner table.now vni destination) own ≡ Everywhere }
    ensures { AreOthers table.now vni own
        (remote_for table.now vni destination entry own (Port port)) }
{
    let _flood = table.flood(vni);
}
