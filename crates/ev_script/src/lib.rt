//! Scripts: the language of a line, and the simulation that plays the lines on a fabric of edges.
#![tactic(auto)]

mod checking;
mod script;
mod simulate;

pub use checking::{CheckedLines, check_lines};
pub use script::{
    Command, Hex, MOST_OCTETS, Mode, Question, edge_question_of, parse, question_of, why_text,
};
pub use simulate::{
    port_number, put_number, put_port, put_refusal, put_reply, put_report, put_words, simulate_run,
};
