//! The refusals of a step.
ghost use Rattle.std.specs.Prelude.{◌≡◌};
ghost use Rattle.ev_fabric.specs.Refusal.{refusal_number};

/// The reason why a step is refused. Nothing changed then.
#[derive(Clone, Copy, Debug, PartialEq, Eq)]
pub enum FabricRefusal {
    /// There is no memory for one more update of the pool, or for an edge that is opened again.
    NoMemory,
    /// No edge has this number.
    NoSuchEdge,
    /// No update of the pool has this number.
    NoSuchUpdate,
    /// The edge already leads this incarnation, or a later one.
    NoHigher,
    /// The edge refuses the event.
    Edge(ev_edge::Refusal),
}

impl FabricRefusal {
    /// Returns the refusal's number among those of its part.
    pub fn number(self) -> u8
        ensures { result ≡ refusal_number self }
    {
        match self {
            FabricRefusal::NoMemory => 15,
            FabricRefusal::NoSuchEdge => 18,
            FabricRefusal::NoSuchUpdate => 19,
            FabricRefusal::NoHigher => 22,
            FabricRefusal::Edge(refusal) => refusal.number(),
        }
    }
}
