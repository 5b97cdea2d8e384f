//! The operator's console over edges that run: lines of the script language, answered in its
//! words.
#![tactic(auto)]

mod answering;
mod conversation;
mod edges;
mod loaded;
mod operated;
mod printing;
mod reached;
mod system_drops;
mod table;
mod turns;

pub use conversation::{converse, converse_with};
pub use operated::{Operated, Unreached};
pub use reached::LocalEdges;
pub use system_drops::{NoDrops, SystemDrops};
pub use turns::{take_turn, take_turn_with};
