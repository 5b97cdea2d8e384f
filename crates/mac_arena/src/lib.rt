//! The learning table of an edge (IEEE 802.1D-2004, clause 7.8 and 7.9): the port of each station,
//! the station that has been silent longest, and the stations that a flush of a port removes.
//!
//! All memory is taken once, when the table is made. A look-up goes along one chain of a hash
//! table, and every change takes a constant number of steps.
#![tactic(auto)]

mod laws;
mod orders;
mod slot;
mod station;
mod table;

pub use laws::{entries_after, going_by_age, going_by_flush, lists_are_short};
pub use station::{Entry, Learned, Station};
pub use table::{Learnt, MacTable};

#[cfg(test)]
mod tests;
