//! Laws on sessions between processes of edges, as functions that do nothing: the contract is the
//! law.
ghost use Rattle.ev_sites.specs.Sessions.{SessionsAgree, AllSessionsAgree, BegunAnew};

/// States that, after a session, the edges of two processes have equal values at each register of
/// either. Each advert is of the present life of an edge that has learnt its station. The same
/// holds for any number of processes, if each two have had a session.
pub fn sessions_agree()
    ensures two { SessionsAgree }
    ensures all { AllSessionsAgree }
{}

/// States that, after the restart of an edge, any run and a session, each advert of that edge in
/// the other process is of the incarnation of that restart, or of a later one.
pub fn begun_anew()
    ensures { BegunAnew }
{}
