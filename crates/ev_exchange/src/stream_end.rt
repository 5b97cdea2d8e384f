//! How a stream of records ends.

/// The end that a stream of records shows now, as if it ended here.
#[derive(Clone, Copy, Debug, PartialEq, Eq)]
pub enum StreamEnd {
    /// It ends after a whole record, or before the first one.
    Whole,
    /// It ends within a record, of which it has this many octets.
    Cut(usize),
    /// It shows a fault, 1 to 4, and nothing after the fault is read.
    Faulty(u8),
}
