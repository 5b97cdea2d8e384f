//! Laws on the bridges of edges, as functions that do nothing: the contract is the law.

ghost use Rattle.ev_sites.specs.Settled.{EdgesStaySettled, FabricsStaySettled};

use rstp_run::{every_event_settles, stays_settled};

/// States that the bridge of an edge is settled at every moment from the edge's opening on, and
/// that each event of the bridge ends settled, if the Hello time isn't 0.
pub fn edges_stay_settled()
    ensures { EdgesStaySettled }
{
    every_event_settles();
    stays_settled();
}

/// States that the bridge of each edge of a fabric is settled after any run from the fabric's
/// opening, with restarts too, and that each event of the bridge ends settled.
pub fn fabrics_stay_settled()
    ensures { FabricsStaySettled }
{
    every_event_settles();
    stays_settled();
}
