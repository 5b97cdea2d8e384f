//! Laws about the sites of a fabric's edges, as functions that do nothing: the contract is the law.

ghost use Rattle.ev_sites.specs.Fabrics.{EveryRunCanBe, NoCircleInAFabric};

use crate::laws::no_circle_through_tunnels;

/// States that, after any run of a fabric from its opening, with restarts too, the bridge of each
/// of its edges came by events from the start of the settings with which the edge was opened.
pub fn every_run_can_be()
    ensures { EveryRunCanBe }
{}

/// States that no frame comes back to a port at which it came in before if the sites of a fabric's
/// edges are at rest. The properties of its edges' bridges that the fabric itself provides are no
/// premise.
pub fn no_circle_in_a_fabric()
    ensures { NoCircleInAFabric }
{
    no_circle_through_tunnels();
}
