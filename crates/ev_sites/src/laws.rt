//! Laws about sites at rest, as functions that do nothing: the contract is the law.

ghost use Rattle.ev_sites.specs.Sites.{
  NeverBackToItsBridge,
  NoCircleThroughTunnels,
  OneTunnelAtMost,
  SitesCanBeAtRest,
};

use crate::{can_be_at_rest, no_circle};

/// States that, in a network at rest, a frame that a bridge sent onto a segment never comes in at
/// that bridge again.
pub fn never_back_to_its_bridge()
    ensures { NeverBackToItsBridge }
{
    no_circle();
}

/// States that, in a fabric whose sites are at rest, no frame comes back to a port at which it came
/// in before, through bridges, edges and tunnels.
pub fn no_circle_through_tunnels()
    ensures { NoCircleThroughTunnels }
{
    no_circle();
}

/// States that a frame that came through a tunnel goes through none again if the sites are at rest.
pub fn one_tunnel_at_most()
    ensures { OneTunnelAtMost }
{
    no_circle();
}

/// States that sites can be at rest, with a frame that crosses to the edge's bridge.
pub fn sites_can_be_at_rest()
    ensures { SitesCanBeAtRest }
{
    can_be_at_rest();
    no_circle();
}
