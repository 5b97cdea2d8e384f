//! Points of a call of a book, at which the call can be delayed.

/// A point of a call of a book.
#[derive(Clone, Copy, PartialEq, Eq, Debug)]
pub enum Point {
    /// Before the edge's lock is taken.
    Before,
    /// With the edge's lock held, before the call.
    Inside,
    /// After the lock is released.
    After,
}

/// A hook that is called at each point of a call of a book. It may delay the call.
pub trait Gate {
    /// Is called at this point of a call of this edge's book. It gets only the edge's number and
    /// returns nothing, so that it can only delay the call, and a contract would have nothing to
    /// state.
    fn at(&self, edge: usize, point: Point);
}

/// A gate that delays nothing.
#[derive(Clone, Copy, Debug, Drop)]
pub struct OpenGate;

impl Gate for OpenGate {
    fn at(&self, _edge: usize, _point: Point) {}
}
