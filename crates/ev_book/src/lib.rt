//! A book: one edge that threads share under a lock, with the journal of the updates that it took
//! and made, and an exact count of the calls of each pass. The history of the edges of one process:
//! which edge announced and took which update, in one order for all edges. It exists in proofs
//! only. Each edge has a word that counts its own entries, so edges never wait for each other.
#![tactic(auto)]

mod book;
mod fitting;
mod front;
mod journal;
mod log_entry;
mod logged_book;
mod mark;
mod opening;
mod pass;
mod refusal;
mod rule;
mod seat;
#[cfg(test)]
mod tests;
mod told;

pub use book::Book;
pub use fitting::fits_again;
pub use front::{Front, Naming};
pub use log_entry::{Deed, LogEntry};
pub use logged_book::{LoggedBook, Placed};
pub use mark::Mark;
pub use opening::{NewHistory, Outside};
pub use pass::{Counted, Pass, Totals};
pub use refusal::BookRefusal;
pub use rule::Adding;
pub use seat::Seat;
pub use told::Told;
