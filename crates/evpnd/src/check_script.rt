//! `evpnd check --script`: checks whether each line of a script is a command.
#![tactic(auto, using(ether_wire::proofs::Appending::with_text_twice, ether_wire::proofs::Appending::with_text_none))]

ghost use Rattle.std.specs.Prelude.{◌≡◌, ◌==◌};
ghost use Rattle.ether_wire.specs.Ends.{Source, IsOpen, Puts};
ghost use Rattle.ev_report.specs.Ends.{devices};
ghost use Rattle.evpnd.specs.Files.{HasRoom};
ghost use Rattle.evpnd.specs.Checks.{desk};
ghost use Rattle.evpnd.specs.Scripts.{lines_word, lines_text, Looks, OfScript};

use crate::files::{Files, Named, text_at};
use ether_wire::{Device, Out, put_decimal};
use ev_report::{Ending, Status, has_failed, status_of};
use ev_script::check_lines;

/// Returns the word after the number of lines, with a line feed.
fn lines_word(count: u64) -> &'static [u8]
    ensures { result.now ≡ lines_word count }
{
    if count == 1 { b" line\n" } else { b" lines\n" }
}

/// Writes the number of lines, if each is a command.
fn put_lines<W: Out>(are_good: bool, count: u64, out: &mut W) -> Result<(), Device>
    ensures { Puts (W.end out.old) (W.end out.new) (lines_text are_good count) result }
{
    if !are_good {
        return Ok(());
    }
    out.put(b"ok: ")?;
    put_decimal(out, count)?;
    out.put(lines_word(count))
}

/// Checks the lines of a script of this name, and returns the status.
fn look<W: Out, N: Out>(name: &str, text: &str, out: &mut W, notes: &mut N) -> Status
    requires out { IsOpen (W.end out.old) }
    requires notes { IsOpen (N.end notes.old) }
    ensures { Looks name.now text.now (W.end out.old) (W.end out.new)
        (N.end notes.old) (N.end notes.new) result }
{
    let found = check_lines(name.as_bytes(), text.as_bytes(), notes);
    let is_written = put_lines(found.are_good, found.count, out).is_ok();
    let has_failed = has_failed(Ending::Ended, is_written, found.are_told);
    status_of(has_failed, false, !found.are_good)
}

/// Checks the script in the file at a path: reports each invalid line, or writes the number of
/// lines.
pub(crate) fn check_script<F: Files, W: Out, N: Out>(
    files: &mut F,
    path: &str,
    out: &mut W,
    notes: &mut N,
) -> Status
    requires files { HasRoom (F.shelf files.old) }
    requires out { IsOpen (W.end out.old) }
    requires notes { IsOpen (N.end notes.old) }
    ensures { (input : Source) → OfScript path.now
        (desk (F.shelf files.old) (devices input (W.end out.old) (N.end notes.old)))
        (desk (F.shelf files.new) (devices input (W.end out.new) (N.end notes.new))) result }
{
    match text_at(files, Named::Script, path, notes) {
        Ok(text) => look(path, text.as_str(), out, notes),
        Err(status) => status,
    }
}
