//! The laws, as functions that do nothing: the contract is the law.
ghost use Rattle.ev_sites.specs.RunningEdges.{HistoryIsARun, RunIsSound};

/// Edges that a history leads to are those of a fabric at the end of a run, which begins with the
/// edges as they were opened and with nothing announced.
pub fn history_is_a_run()
    ensures { HistoryIsARun }
{}

/// States that the fabric at the end of a run is sound, if the configurations can be opened as a
/// fabric. So the laws on sound fabrics of `ev_fabric` hold for the edges that the run leads to.
pub fn run_is_sound()
    ensures { RunIsSound }
{}
