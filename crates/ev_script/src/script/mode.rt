//! How a script is run.
ghost use Rattle.std.specs.Prelude.{◌≡◌};
ghost use Rattle.ev_script.specs.Script.{is_remark, skips, asked_in};

use crate::script::question::{Question, question_of};

/// How a script is run.
#[derive(Clone, Copy, Debug)]
pub enum Mode {
    /// Each line is a command, and its result is printed.
    Simulate,
    /// Empty lines and remarks are skipped, a line may be a query, and the line of a command or
    /// a query is printed before its result.
    Play,
}

/// Returns `true` if a line is empty, or a remark.
fn is_remark(line: &[u8]) -> bool
    ensures { result ≡ is_remark line.now }
{
    match line.first() {
        None => true,
        Some(octet) => *octet == b'#',
    }
}

impl Mode {
    /// Returns the query of a line, if it is one in this mode.
    pub(crate) fn question(self, line: &[u8]) -> Option<Question>
        ensures { result ≡ asked_in self line.now }
    {
        match self {
            Mode::Simulate => None,
            Mode::Play => question_of(line),
        }
    }

    /// Returns `true` if a line is skipped.
    pub(crate) fn skips(self, line: &[u8]) -> bool
        ensures { result ≡ skips self line.now }
    {
        match self {
            Mode::Simulate => false,
            Mode::Play => is_remark(line),
        }
    }
}
