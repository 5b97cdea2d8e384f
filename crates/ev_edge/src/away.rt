//! Edges that are away: an edge gives them no frame until they are back.
//!
//! Their routes stay in the table, and the report with them: only the forwarding decisions change.
ghost use Rattle.std.specs.Prelude.{◌≡◌, ◌≤◌, length};
ghost use Rattle.route_join.specs.Table.{is_listed};
ghost use Rattle.ev_edge.specs.Edge.{table_of};
ghost use Rattle.ev_edge.specs.Away.{with_away, with_back};
ghost use Rattle.ev_edge.specs.Steps.{Marks, answered};

use crate::edge::Edge;
use crate::refusal::{EdgeRefusal, Refusal};
use crate::reply::Reply;
use arrayvec::ArrayVec;
use ether_wire::Addr;

/// Returns a copy of a list.
fn copy_of(edges: &[Addr]) -> ArrayVec<Addr, 64>
    requires { length edges.now ≤ 64 }
    ensures { result.items ≡ edges.now }
{
    let mut copy = ArrayVec::new();
    let _fits = copy.try_extend_from_slice(edges);
    copy
}

/// Keeps those of the originators that are away, and this edge.
fn keep_away(originators: &mut ArrayVec<Addr, 64>, away: &ArrayVec<Addr, 64>, edge: Addr)
    ensures { originators.new.items ≡ with_away originators.old.items away.now.items edge }
{
    let away = away.as_slice();
    originators.retain(|originator| *originator == edge || away.contains(originator));
}

/// Removes an edge from those that are away.
fn remove(away: &mut ArrayVec<Addr, 64>, edge: Addr)
    ensures { away.new.items ≡ with_back away.old.items edge }
{
    away.retain(|other| *other != edge);
}

impl Edge {
    /// Returns `true` if the edge is a listed originator.
    fn lists(&self, edge: Addr) -> bool
        ensures { result ≡ is_listed (table_of self.now) edge }
    {
        self.routes.table().originators().contains(&edge)
    }

    /// Returns the edges that are away once this one is, too.
    fn with_away(&self, edge: Addr) -> ArrayVec<Addr, 64>
        ensures { result.items ≡ with_away (table_of self.now).originators self.now.away edge }
    {
        let mut away = copy_of(self.routes.table().originators());
        keep_away(&mut away, &self.away, edge);
        away
    }

    /// Another edge is away: no frame goes to it until it is back.
    pub(crate) fn goes_away(&mut self, edge: Addr, reply: &mut Reply) -> Result<(), Refusal>
        ensures { Marks (is_listed (table_of self.old) edge) self.old
            (with_away (table_of self.old).originators self.old.away edge)
            (answered result reply.new) self.new }
    {
        if !self.lists(edge) {
            return Err(Refusal::Edge(EdgeRefusal::UnknownOriginator));
        }
        reply.clear();
        self.away = self.with_away(edge);
        Ok(())
    }

    /// Another edge is back: frames go to it again.
    pub(crate) fn comes_back(&mut self, edge: Addr, reply: &mut Reply) -> Result<(), Refusal>
        ensures { Marks (is_listed (table_of self.old) edge) self.old
            (with_back self.old.away edge) (answered result reply.new) self.new }
    {
        if !self.lists(edge) {
            return Err(Refusal::Edge(EdgeRefusal::UnknownOriginator));
        }
        reply.clear();
        remove(&mut self.away, edge);
        Ok(())
    }
}
