//! Doubly linked lists of nodes that are named by numbers, through one arena of nodes.
//!
//! A table that orders the same entries in several ways needs lists by index: an entry is a node,
//! each order is a family of lists, and an entry leaves any list in a constant number of steps.
#![tactic(auto)]

mod family;
mod linked_lists;
mod places;

pub use family::Family;

#[cfg(test)]
mod tests;
