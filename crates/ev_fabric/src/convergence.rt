//! Laws about an undisturbed fabric, as functions that do nothing: the contract is the law. In an
//! undisturbed fabric there are only announcements and deliveries, and no growth is refused. The
//! laws make no statement about time, or about which update is delivered when.
ghost use Rattle.std.specs.Prelude.{◌≡◌, ◌⊎◌, ◌+◌, ◌≤◌, ◌^◌, ℕ, List, [], ◌∷◌, length};
ghost use Rattle.route_join.specs.Owner.{IsOwner};
ghost use Rattle.mac_arena.specs.declared.station.Station.{Station};
ghost use Rattle.ev_claims.specs.LocalRoutes.{capacity};
ghost use Rattle.ev_edge.specs.declared.config.EdgeConfig.{EdgeConfig};
ghost use Rattle.ev_edge.specs.Edge.{Edge as EdgeState, table_of, address_of};
ghost use Rattle.ev_fabric.specs.declared.step.Step.{Step};
ghost use Rattle.ev_fabric.specs.Fabric.{Fabric as State, IsEdge};
ghost use Rattle.ev_fabric.specs.Opening.{AreConfigs, IsStart};
ghost use Rattle.ev_fabric.specs.Sound.{IsSound};
ghost use Rattle.ev_fabric.specs.Agreed.{AllAgree};
ghost use Rattle.ev_fabric.specs.ConvergenceEdge.{IsLater, unsaid};
ghost use Rattle.ev_fabric.specs.Convergence.{Rests, Works, AllQuiet, HasNumbers, two_rounds, AllGiven, AllSilent, full_pool, work};
ghost use Rattle.ev_fabric.specs.ConvergenceMove.{StationMoves, IsMoved};

/// States that the size of the pool plus the number of updates that it may still get never grows,
/// so it bounds the pool.
pub fn bounded()
    ensures left { (steps : List Step) (old new : State) → IsSound old → Rests old steps new →
        full_pool new ≤ full_pool old }
    ensures pool { (steps : List Step) (old new : State) → IsSound old → Rests old steps new →
        length new.pool ≤ full_pool old }
{}

/// States that each own register of an edge stays unchanged or ends without an advert, and that the
/// numbers that this takes are bounded.
pub fn fades()
    ensures { (steps : List Step) (old new : State) → IsSound old → Rests old steps new →
        (i : ℕ) (b : EdgeState) → IsEdge new i b →
        (a : EdgeState) × IsEdge old i a × IsLater a.routes.speaker b.routes.speaker
        × (b.routes.speaker.counter + unsaid new.pool b.routes
        ≤ a.routes.speaker.counter + unsaid old.pool a.routes) }
{}

/// States that two rounds, which are known beforehand, lead to agreement, and that every list of
/// announcements and deliveries can be carried out.
pub fn agrees()
    ensures ends { (old new : State) → IsSound old → HasNumbers old →
        Rests old (two_rounds old) new → AllAgree new }
    ensures comes { (old : State) → IsSound old → HasNumbers old →
        (new : State) × Rests old (two_rounds old) new }
    ensures any { (old : State) (steps : List Step) → IsSound old → HasNumbers old →
        AllQuiet steps →
        (new : State) × Rests old steps new }
{}

/// States that a run ends in agreement if each edge took each update of the final pool during it
/// and nothing is pending at its end.
pub fn fair()
    ensures { (old : State) (steps : List Step) (new : State) → IsSound old →
        AllGiven old steps new → AllSilent new → AllAgree new }
{}

/// States that, in any order, the number of steps that change the fabric is bounded; that one more
/// can be made until all edges agree; and that none changes anything once all agree.
pub fn settles()
    ensures bound { (steps : List Step) (old new : State) → IsSound old → Works old steps new →
        length steps + work new ≤ work old }
    ensures on { (f : State) → IsSound f → HasNumbers f →
        AllAgree f ⊎ ((step : Step) × (new : State) × Works f (step ∷ []) new) }
    ensures end { (steps : List Step) (old new : State) → IsSound old → AllAgree old →
        Rests old steps new → new ≡ old }
{}

/// States that the premise on numbers, `HasNumbers`, holds for every fabric as it is opened, and as
/// long as each counter plus the capacity of the learning table plus the length of the pool is at
/// most 2^63. So two rounds lead from every opened fabric to a sound one in which all edges agree.
pub fn reached()
    ensures start { (configs : List EdgeConfig) (f : State) → IsStart configs f → HasNumbers f }
    ensures few { (f : State) → IsSound f → ((i : ℕ) (a : EdgeState) → IsEdge f i a →
        a.routes.speaker.counter + capacity a.routes + length f.pool ≤ 2 ^ 63) → HasNumbers f }
    ensures agreement { (configs : List EdgeConfig) (f : State) → AreConfigs configs →
        IsStart configs f →
        (new : State) × Rests f (two_rounds f) new × AllAgree new × IsSound new }
{}

/// States what happens if a station of a fabric that agrees comes to another edge, which learns it
/// by a frame or has it pinned. Two rounds later all edges agree again. Whenever they do, there
/// were exactly two announcements, the new edge's advert and the old edge's withdrawal, and the new
/// edge owns the station at every edge.
pub fn moves()
    ensures agrees { (i j : ℕ) (s : Station) (old mid new : State) → IsSound old →
        StationMoves old i j s mid → Rests mid (two_rounds mid) new → AllAgree new }
    ensures pool { (i j : ℕ) (s : Station) (old mid new : State) (steps : List Step) → IsSound old →
        (m : StationMoves old i j s mid) → Rests mid steps new → AllAgree new →
        IsMoved old.pool s (address_of m.from) (address_of m.to) new.pool }
    ensures owner { (i j : ℕ) (s : Station) (old mid new : State) (steps : List Step) →
        IsSound old →
        (m : StationMoves old i j s mid) → Rests mid steps new → AllAgree new →
        (x : ℕ) (c : EdgeState) → IsEdge new x c →
        IsOwner (table_of c) s.vni s.mac (address_of m.to) }
{}
