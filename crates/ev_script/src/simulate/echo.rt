//! Prints the line of a command or a query if a script is played.
ghost use Rattle.ether_wire.specs.Ends.{Puts};
ghost use Rattle.ev_script.specs.Printing.{shown_text};

use crate::script::Mode;
use ether_wire::{Device, Out};

/// Writes the line of a command or a query if the script is played: `> LINE`.
pub(crate) fn put_shown<W: Out>(out: &mut W, mode: Mode, line: &[u8]) -> Result<(), Device>
    ensures { Puts (W.end out.old) (W.end out.new) (shown_text mode line.now) result }
{
    match mode {
        Mode::Simulate => Ok(()),
        Mode::Play => {
            out.put(b"> ")?;
            out.put(line)?;
            out.put(b"\n")
        }
    }
}
