//! The tables of a document, and the conditions on their values.
ghost use Rattle.std.specs.Prelude.{◌≤◌};

use crate::seen_names::SeenNames;
use arrayvec::ArrayVec;
use ether_wire::Vni;
use toml::Table;

/// A table of the document. Edges, ports and peers count from 1.
#[derive(Clone, Copy, Drop)]
pub(crate) enum DocumentTable<'a> {
    /// The document's own.
    File(&'a Table),
    /// This edge's.
    Edge(usize, &'a Table),
    /// That of this edge's port.
    Port(usize, usize, &'a Table),
    /// This peer's.
    Peer(usize, &'a Table),
}

/// The conditions on the values of a table.
#[derive(Drop)]
pub(crate) struct Context<'a> {
    /// Whether the document is for a run.
    pub(crate) for_run: bool,
    /// The names of the tables before.
    pub(crate) names: &'a SeenNames,
    /// The VNIs of the edge, if they are known.
    pub(crate) vnis: &'a Option<ArrayVec<Vni, 64>>,
    /// The number of edges.
    pub(crate) edges: usize,
    /// Whether the table is that of a port with a device.
    pub(crate) has_device: bool,
    ghost few: { edges ≤ 64 },
}
