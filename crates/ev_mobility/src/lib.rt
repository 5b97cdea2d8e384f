//! Mobility (RFC 7432, section 15): the sequence number of the next own advert of an address, and
//! the number of recent moves of an address.
#![tactic(auto)]

mod alert;
mod laws;
mod moves;
mod seq;
#[cfg(test)]
mod tests;
mod window;

pub use alert::Alert;
pub use laws::window_with_one_more_move;
pub use moves::Moves;
pub use seq::{Seq, next_seq};
