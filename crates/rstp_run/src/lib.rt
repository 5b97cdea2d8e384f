//! A bridge of the rapid spanning tree (IEEE 802.1D-2004, clause 17, in this project's own table):
//! the names of all rules, and the sweep that fires them in their order.
#![tactic(auto)]

mod bridge;
mod bridge_detection;
mod class;
mod count;
mod engine;
mod event;
mod firing;
mod information;
mod laws;
mod migration;
mod port_receive;
mod rest;
mod rule;
#[cfg(test)]
mod tests;
mod topology_change;
mod transmit;

pub use bridge::{Bridge, BridgeConfig};
pub use event::{Effect, Event, Outcome};
pub use laws::{
    designated_port_has, edge_rests, event_ends_settled, events_are_short, events_settle,
    every_event_settles, lasting_is_reached, losing_keeps_tree, one_outcome, one_root_port,
    passing_is_in_tree, ports_are_numbered, roles_last, root_port_is_followed, runs_happen,
    selection_is_current, selects_twice, settled_by_lists, settled_port_sends, stays_settled,
};
pub use rule::{
    DetectionRule, InformationRule, MAIN, MigrationRule, ReceiveRule, Rule, SENDS, TopologyRule,
    TransmitRule,
};
