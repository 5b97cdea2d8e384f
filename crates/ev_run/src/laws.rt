//! The law on the edges of a run, as a function that does nothing: the contract is the law.
ghost use Rattle.ev_run.specs.Laws.{RanIsSound};

/// States that the edges that a run leaves are those of a sound fabric, if all ran and no clients
/// may query them. The fabric began with the edges of the configuration as they were opened. So the
/// laws on sound fabrics of `ev_fabric` hold for these edges, and for the tables that are reported.
pub fn ran_is_sound()
    ensures { RanIsSound }
{}
