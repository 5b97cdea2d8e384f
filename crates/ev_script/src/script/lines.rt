//! The lines of a script.
ghost use Rattle.std.specs.Prelude.{◌≡◌, ◌<◌, length};
ghost use Rattle.ev_script.specs.Script.{cut_line};

use ether_wire::parted;

/// Returns the first line, and the text after its line feed.
pub(crate) fn cut_line(text: &[u8]) -> (&[u8], &[u8])
    ensures value { (result.0.now, result.1.now) ≡ cut_line text.now }
    ensures shorter { 0 < length text.now → length result.1.now < length text.now }
{
    match parted(b'\n', text) {
        Some((line, rest)) => (line, rest),
        None => text.split_at(text.len()),
    }
}
