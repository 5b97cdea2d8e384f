//! Tests of behaviour that no clause states, and worked examples of moves and sequence numbers.

mod alert;
mod moves;
mod seq;
