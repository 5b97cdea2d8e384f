//! Laws about every run of a fabric, as functions that do nothing: the contract is the law.
ghost use Rattle.ev_fabric.specs.Laws.{Starts, EveryRun, NoneAhead, Announced, SaidOnce, OneOfTwo, AgreedTables, AgreedReports, OneOfAll, Learnt, OwnerOfAll, NoneBack, FramesGo, FramesComeOut, TunnelFramesComeOut, FromPortToPort, TablesJoin, SetsJoin};

/// States that a fabric of edges as they are opened is sound.
pub fn starts()
    ensures { Starts }
{}

/// States that every list of steps, with any results, keeps a fabric sound.
pub fn every_run()
    ensures { EveryRun }
{}

/// States that no table holds a register newer than its originator's own, except for values of an
/// earlier incarnation of that originator.
pub fn none_ahead()
    ensures { NoneAhead }
{}

/// States that each value an edge holds is in the pool, except for its own pending ones.
pub fn announced()
    ensures { Announced }
{}

/// States that two updates of the pool with one register, incarnation and number are equal.
pub fn said_once()
    ensures { SaidOnce }
{}

/// States that of two good edges with equal registers at most one advertises a station, after any
/// history.
pub fn one_of_two()
    ensures { OneOfTwo }
{}

/// States that each edge's table is the table of the pool if all edges agree.
pub fn agreed_tables()
    ensures { AgreedTables }
{}

/// States that all edges report the same octets if all agree.
pub fn agreed_reports()
    ensures { AgreedReports }
{}

/// States that at most one edge of all advertises a station if all agree.
pub fn one_of_all()
    ensures { OneOfAll }
{}

/// States that an edge that advertises a station has learnt it, on a port of its VNI.
pub fn learnt()
    ensures { Learnt }
{}

/// States that every edge takes the edge that advertises a station for its owner if all agree.
pub fn owner_of_all()
    ensures { OwnerOfAll }
{}

/// States that no table has an advert of an earlier incarnation of its originator if all agree.
pub fn none_back()
    ensures { NoneBack }
{}

/// States that, if all agree and an edge advertises a station, the next frame for it at another
/// edge, from another source address on a port that passes, goes to the advertising edge only.
pub fn frames_go()
    ensures { FramesGo }
{}

/// States that, at the edge that advertises a station, the next frame for it, from another source
/// address on a port that passes, goes only to the port on which the station is learnt, if that
/// port passes and isn't the frame's own; otherwise it goes nowhere.
pub fn frames_come_out()
    ensures { FramesComeOut }
{}

/// States that, at the edge that advertises a station, the next frame for it that comes from
/// another edge goes only to the port on which the station is learnt, if that port passes;
/// otherwise it goes nowhere.
pub fn tunnel_frames_come_out()
    ensures { TunnelFramesComeOut }
{}

/// States that, if all agree, a frame at a port that passes, for a station that another edge
/// advertises, goes to that edge only; and that the datagram of its VNI and octets, entered there,
/// goes only to the port on which the station is learnt, if that port passes, otherwise nowhere.
pub fn from_port_to_port()
    ensures { FromPortToPort }
{}

/// States that the join of edges' tables is commutative and associative, and that a table joined to
/// itself stays unchanged.
pub fn tables_join()
    ensures { TablesJoin }
{}

/// States that the join of two edges' tables is the table of both sets of updates together.
pub fn sets_join()
    ensures { SetsJoin }
{}
