//! Checks the lines of a script without running them.
#![tactic(auto, using(ether_wire::proofs::Appending::with_text_twice, ether_wire::proofs::Appending::with_text_none))]

ghost use Rattle.std.specs.Prelude.{◌≡◌, ◌+◌, ◌<◌, ◌^◌, ◌&&◌, true};
ghost use Rattle.ether_wire.specs.Ends.{Puts};
ghost use Rattle.ev_report.specs.Ends.{Tells};
ghost use Rattle.ev_script.specs.Faults.{is_good, fault_text, told_text, ChecksLines};

use crate::script::{LineFault, cut_line, is_good, why_of};
use ether_wire::{Device, Out, put_decimal};

/// The result of a check of lines.
#[derive(Clone, Copy, Debug)]
pub struct CheckedLines {
    /// The number of lines.
    pub count: u64,
    /// Whether each line is a command.
    pub are_good: bool,
    /// Whether no note has failed.
    pub are_told: bool,
}

/// Writes `NAME:N: WHY`.
pub(crate) fn put_fault<N: Out>(
    notes: &mut N,
    name: &[u8],
    number: u64,
    fault: LineFault,
) -> Result<(), Device>
    ensures { Puts (N.end notes.old) (N.end notes.new) (fault_text name.now number fault) result }
{
    notes.put(name)?;
    notes.put(b":")?;
    put_decimal(notes, number)?;
    notes.put(fault.why())
}

/// Writes why the line of this number is bad, if it is.
fn put_told<N: Out>(notes: &mut N, name: &[u8], number: u64, line: &[u8]) -> Result<(), Device>
    ensures { Puts (N.end notes.old) (N.end notes.new) (told_text name.now number line.now) result }
{
    if is_good(line) {
        return Ok(());
    }
    put_fault(notes, name, number, why_of(line))
}

impl CheckedLines {
    /// Returns the result with one line more. Reports the line if it is none of the commands.
    fn with<N: Out>(self, name: &[u8], line: &[u8], notes: &mut N) -> CheckedLines
        requires { self.count + 1 < 2 ^ 64 }
        ensures count { result.count ≡ self.count + 1 }
        ensures good { result.are_good ≡ (self.are_good && is_good line.now) }
        ensures told { Tells (N.end notes.old) (N.end notes.new) self.are_told result.are_told
            (told_text name.now (self.count + 1) line.now) }
    {
        let count = self.count + 1;
        CheckedLines {
            count,
            are_good: self.are_good && is_good(line),
            are_told: self.are_told && put_told(notes, name, count, line).is_ok(),
        }
    }
}

/// Checks each line of a script, and writes `NAME:N: WHY` on the notes for each that is none of the
/// commands. After a note that failed it writes no more.
pub fn check_lines<N: Out>(name: &[u8], script: &[u8], notes: &mut N) -> CheckedLines
    ensures { ChecksLines name.now script.now (N.end notes.old) (N.end notes.new) result }
{
    let mut rest = script;
    let mut found = CheckedLines {
        count: 0,
        are_good: true,
        are_told: true,
    };
    'lines: while !rest.is_empty() {
        let (line, after) = cut_line(rest);
        found = found.with(name, line, notes);
        rest = after;
    }
    found
}
