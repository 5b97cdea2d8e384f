//! Laws on ageing, flushes and the opening, as functions that do nothing: the contract is the law.
ghost use Rattle.std.specs.Prelude.{eqb};
ghost use Rattle.std.specs.List.{IsDistinct};
ghost use Rattle.ev_claims.specs.Laws.{AgesOut, FlushesOut};
ghost use Rattle.ev_claims.specs.Opening.{IsOpening, Opens};

use crate::local_routes::LocalRoutes;
use crate::opening::Start;

/// Exactly the unpinned stations that were last heard at the limit or before go by age, and their
/// withdrawals are numbered in the order in which they were last heard.
pub fn aged_out(routes: &LocalRoutes, limit: u64)
    ensures { AgesOut routes.now limit }
{
    routes.always_good();
}

/// Exactly the unpinned stations behind the ports of a set go when these are flushed, and their
/// withdrawals are numbered port by port, in the order in which they came to each.
pub fn flushed_out(routes: &LocalRoutes, ports: u64)
    ensures { FlushesOut routes.now ports }
{
    routes.always_good();
}

/// The opening is a change like any other: from no update and counter 0, the edge advertises the
/// flood list of each VNI, each once.
pub fn opening_originates(start: &Start, routes: &LocalRoutes)
    requires distinct { IsDistinct eqb start.now.vnis.items }
    requires opening { IsOpening start.now routes.now }
    ensures { Opens start.now routes.now }
{}
