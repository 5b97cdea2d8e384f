//! The answers to queries of one edge: its line, the owner of a station with the reasons, its
//! counts, the stations that it has learnt, the other edges that it lists.
#![tactic(auto)]

mod counts;
mod edge_line;
mod laws;
mod link_lines;
mod owner;
mod peers;
mod sheet;
mod stations;
mod unlisted;
mod view;

pub use edge_line::{put_edge, put_edge_line};
pub use laws::owner_leads;
pub use link_lines::{LinkRow, links_of};
pub use unlisted::with_unlisted;
pub use view::{EdgeQuestion, put_edge_view, view_of};

#[cfg(test)]
mod tests;
