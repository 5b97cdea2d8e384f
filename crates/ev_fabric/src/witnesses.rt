//! Fabrics that meet the premises of the laws, as functions that do nothing: the contract states
//! that there is one. A law whose premises are never met would prove anything.
ghost use Rattle.ev_fabric.specs.Witnesses.{FabricOpens};

/// A witness of `starts`, and so of the laws whose only premise is a sound fabric: one of two
/// edges, as it is opened.
pub fn fabric_opens()
    ensures { FabricOpens }
{}
