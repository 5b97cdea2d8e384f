//! Laws about the result of a run of a fabric, as functions that do nothing: the contract is the
//! law.
ghost use Rattle.ev_fabric.specs.Later.{RunsLead, RestsRun, AdvertsAreAnew};

/// States that, after any run, there are as many edges, each under its address and in its
/// incarnation or a later one, and that the pool begins with its old updates.
pub fn runs_lead()
    ensures { RunsLead }
{}

/// States that a run of an undisturbed fabric is a run like any other.
pub fn rests_run()
    ensures { RestsRun }
{}

/// States that, if all edges agree after an edge's restart and any run after it, each advert of
/// that edge in any table is of the incarnation of that restart, or of a later one.
pub fn adverts_are_anew()
    ensures { AdvertsAreAnew }
{}
