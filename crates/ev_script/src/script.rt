//! The language of scripts: one command per line.

mod command;
mod digits;
mod fault;
mod hex;
mod lines;
mod mode;
mod parsing;
mod question;

pub use command::Command;
pub use fault::why_text;
pub(crate) use fault::{LineFault, is_good, why_of};
pub use hex::Hex;
pub(crate) use lines::cut_line;
pub use mode::Mode;
pub use parsing::{MOST_OCTETS, parse};
pub use question::{Question, edge_question_of, question_of};
